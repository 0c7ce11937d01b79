//! A sheet that owns its memory and its estimator.
#![tactic(auto)]

ghost use Rattle.std.specs.Prelude.{◌≡◌, IfOk};
ghost use Rattle.sheet.specs.Calls.{lay, join_of, cross, limit, union, group_of, order, cut};
ghost use Rattle.sheet.specs.Least.{read_clear, Least};
ghost use Rattle.sheet.specs.Outcomes.{Keeps};
ghost use Rattle.sheet.specs.Reads.{read_answer, shown};
ghost use Rattle.sheets.specs.Owned.{held, Fresh, Called};

use keys::Key;
use questions::Estimator;
use sheet::{BLANK, Grouping, Head, Join, NO_NODE, Node, NodeView, Refusal};
use stats::{ColumnStatistics, Precision};
use std::alloc::{AllocError, Allocator};

/// A sheet with memory for a stated number of nodes and of columns. Its numbers
/// and refusals are those of the calls of `Head`.
#[derive(Drop)]
pub struct Sheet<K, E, A: Allocator> {
    head: Head,
    nodes: Vec<Node, A>,
    columns: Vec<ColumnStatistics<K>, A>,
    estimator: E,
}

impl<K: Key, E: Estimator<K> + Copy, A: Allocator + Copy> Sheet<K, E, A> {
    /// A blank sheet.
    pub fn new(
        heap: A,
        nodes: usize,
        columns: usize,
        estimator: E,
    ) -> Result<Sheet<K, E, A>, AllocError>
        ensures { IfOk result (λ s. Fresh nodes columns estimator s) }
    {
        Ok(Sheet {
            head: BLANK,
            nodes: vec![in heap; NO_NODE; nodes]?,
            columns: vec![in heap; ColumnStatistics::unknown(); columns]?,
            estimator,
        })
    }

    /// Lays a table: its rows, bytes and columns.
    pub fn lay(
        &mut self,
        rows: Precision<u64>,
        bytes: Precision<u64>,
        laid: &[ColumnStatistics<K>],
    ) -> Result<usize, Refusal>
        ensures { Called K.relation E.Estimator.figure (order (lay rows bytes laid.now)) self.old result self.new }
    {
        self.head
            .lay(&mut self.nodes, &mut self.columns, rows, bytes, laid)
    }

    /// Joins two nodes by keys. Types 0 to 7 ask the estimator.
    pub fn join(&mut self, join: &Join<'_>) -> Result<usize, Refusal>
        ensures { Called K.relation E.Estimator.figure (order (join_of join.now)) self.old result self.new }
    {
        self.head
            .join(&mut self.nodes, &mut self.columns, &self.estimator, join)
    }

    /// Puts every row of one node beside every row of another.
    pub fn cross_join(&mut self, left: usize, right: usize) -> Result<usize, Refusal>
        ensures { Called K.relation E.Estimator.figure (order (cross left right)) self.old result self.new }
    {
        self.head
            .cross_join(&mut self.nodes, &mut self.columns, left, right)
    }

    /// Skips rows of a node, and fetches at most so many of the others.
    pub fn limit(&mut self, child: usize, skip: u64, fetch: Option<u64>) -> Result<usize, Refusal>
        ensures { Called K.relation E.Estimator.figure (order (limit child skip fetch)) self.old result self.new }
    {
        self.head
            .limit(&mut self.nodes, &mut self.columns, child, skip, fetch)
    }

    /// Puts the rows of 1 to 8 nodes one after the other.
    pub fn union(&mut self, children: &[usize]) -> Result<usize, Refusal>
        ensures { Called K.relation E.Estimator.figure (order (union children.now)) self.old result self.new }
    {
        self.head
            .union(&mut self.nodes, &mut self.columns, children)
    }

    /// Groups a node's rows by keys.
    pub fn group(&mut self, grouping: &Grouping<'_>) -> Result<usize, Refusal>
        ensures { Called K.relation E.Estimator.figure (order (group_of grouping.now)) self.old result self.new }
    {
        self.head
            .group(&mut self.nodes, &mut self.columns, grouping)
    }

    /// Keeps nodes 1 to `n`; node and column memory after them is used again.
    pub fn cut(&mut self, n: usize) -> Result<usize, Refusal>
        ensures { Called K.relation E.Estimator.figure (cut n) self.old result self.new }
    {
        self.head.cut(&self.nodes, &self.columns, n)
    }

    /// What a node says of its table.
    pub fn read(&self, n: usize) -> Result<NodeView<'_, K>, Refusal>
        ensures value { shown result ≡ read_answer K.relation (held self.now) n }
        ensures least { Least (read_clear K.relation (held self.now) n) (shown result) }
        ensures keeps { Keeps K.relation (E.Estimator.figure self.now.estimator) (held self.now) (held self.now) }
    {
        self.head.read(&self.nodes, &self.columns, n)
    }
}
