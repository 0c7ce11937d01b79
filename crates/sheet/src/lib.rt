//! A sheet of estimates: nodes and their columns, in memory that is handed in.
#![tactic(auto)]

ghost use Rattle.std.specs.Prelude.{◌≡◌};
ghost use Rattle.sheet.specs.Sheets.{Sheet, sheet_of};
ghost use Rattle.sheet.specs.Calls.{lay, join_of, cross, limit, union, group_of, order, cut};
ghost use Rattle.sheet.specs.Least.{read_clear, Least};
ghost use Rattle.sheet.specs.Reads.{read_answer, shown};
ghost use Rattle.sheet.specs.Laws.{Reached, Laws};
ghost use Rattle.sheet.specs.Outcomes.{Outcome, Keeps, OutcomeForAll, KeepsForAll};

mod blocks;
mod calls;
mod checks;
mod crosses;
mod groups;
mod joins;
mod limits;
mod operators;
mod parts;
mod reads;
mod refusals;
mod shorts;
mod unions;
mod views;

use calls::{cut_on, laid_on};
pub use checks::{MAX_NODES, MAX_WIDTH};
use crosses::crossed_on;
pub use groups::Grouping;
use groups::grouped_on;
pub use joins::Join;
use joins::joined_on;
use keys::Key;
use limits::limited_on;
pub use operators::{AggregateMode, Operator};
use questions::{Estimator, Figure};
pub use reads::NodeView;
use reads::read_on;
pub use refusals::Refusal;
pub use shorts::Short;
use stats::{ColumnStatistics, Precision};
pub use unions::MAX_CHILDREN;
use unions::united_on;

/// The head of a sheet: how many nodes stand, and how much column memory is
/// used. Nodes are numbered from 1.
// Numbers of nodes and places in one memory, and no tree of boxes: a sheet has no
// heap, its memory is handed in at each call.
#[derive(Clone, Copy, PartialEq, Eq, Debug)]
pub struct Head {
    pub count: usize,
    pub used: usize,
}

/// The head of a blank sheet.
pub const BLANK: Head = Head { count: 0, used: 0 };

// Each call's step is proved by itself (`laid_on` and the like); here are its promises.
// No ghost field can hold them, since the memory that they speak of is lent.
impl Head {
    /// Lays a table: its rows, bytes and columns.
    pub fn lay<K: Key>(
        &mut self,
        nodes: &mut [Node],
        columns: &mut [ColumnStatistics<K>],
        rows: Precision<u64>,
        bytes: Precision<u64>,
        laid: &[ColumnStatistics<K>],
    ) -> Result<usize, Refusal>
        ensures outcome { OutcomeForAll K.relation (order (lay rows bytes laid.now)) (sheet_of self.old nodes.old columns.old) result (sheet_of self.new nodes.new columns.new) }
        ensures keeps { KeepsForAll K.relation (sheet_of self.old nodes.old columns.old) (sheet_of self.new nodes.new columns.new) }
    {
        laid_on(self, nodes, columns, rows, bytes, laid)
    }

    /// Joins two nodes by keys. Types 0 to 7 ask the estimator.
    pub fn join<K: Key, E: Estimator<K>>(
        &mut self,
        nodes: &mut [Node],
        columns: &mut [ColumnStatistics<K>],
        estimator: &E,
        join: &Join<'_>,
    ) -> Result<usize, Refusal>
        ensures outcome { Outcome K.relation (E.Estimator.figure estimator.now) (order (join_of join.now)) (sheet_of self.old nodes.old columns.old) result (sheet_of self.new nodes.new columns.new) }
        ensures keeps { Keeps K.relation (E.Estimator.figure estimator.now) (sheet_of self.old nodes.old columns.old) (sheet_of self.new nodes.new columns.new) }
    {
        joined_on(self, nodes, columns, estimator, join)
    }

    /// Puts every row of one node beside every row of another.
    pub fn cross_join<K: Key>(
        &mut self,
        nodes: &mut [Node],
        columns: &mut [ColumnStatistics<K>],
        left: usize,
        right: usize,
    ) -> Result<usize, Refusal>
        ensures outcome { OutcomeForAll K.relation (order (cross left right)) (sheet_of self.old nodes.old columns.old) result (sheet_of self.new nodes.new columns.new) }
        ensures keeps { KeepsForAll K.relation (sheet_of self.old nodes.old columns.old) (sheet_of self.new nodes.new columns.new) }
    {
        crossed_on(self, nodes, columns, left, right)
    }

    /// Skips rows of a node, and fetches at most so many of the others.
    pub fn limit<K: Key>(
        &mut self,
        nodes: &mut [Node],
        columns: &mut [ColumnStatistics<K>],
        child: usize,
        skip: u64,
        fetch: Option<u64>,
    ) -> Result<usize, Refusal>
        ensures outcome { OutcomeForAll K.relation (order (limit child skip fetch)) (sheet_of self.old nodes.old columns.old) result (sheet_of self.new nodes.new columns.new) }
        ensures keeps { KeepsForAll K.relation (sheet_of self.old nodes.old columns.old) (sheet_of self.new nodes.new columns.new) }
    {
        limited_on(self, nodes, columns, child, skip, fetch)
    }

    /// Puts the rows of 1 to 8 nodes one after the other.
    pub fn union<K: Key>(
        &mut self,
        nodes: &mut [Node],
        columns: &mut [ColumnStatistics<K>],
        children: &[usize],
    ) -> Result<usize, Refusal>
        ensures outcome { OutcomeForAll K.relation (order (union children.now)) (sheet_of self.old nodes.old columns.old) result (sheet_of self.new nodes.new columns.new) }
        ensures keeps { KeepsForAll K.relation (sheet_of self.old nodes.old columns.old) (sheet_of self.new nodes.new columns.new) }
    {
        united_on(self, nodes, columns, children)
    }

    /// Groups a node's rows by keys.
    pub fn group<K: Key>(
        &mut self,
        nodes: &mut [Node],
        columns: &mut [ColumnStatistics<K>],
        grouping: &Grouping<'_>,
    ) -> Result<usize, Refusal>
        ensures outcome { OutcomeForAll K.relation (order (group_of grouping.now)) (sheet_of self.old nodes.old columns.old) result (sheet_of self.new nodes.new columns.new) }
        ensures keeps { KeepsForAll K.relation (sheet_of self.old nodes.old columns.old) (sheet_of self.new nodes.new columns.new) }
    {
        grouped_on(self, nodes, columns, grouping)
    }

    /// Keeps nodes 1 to `n`; node and column memory after them is used again.
    pub fn cut<K: Key>(
        &mut self,
        nodes: &[Node],
        columns: &[ColumnStatistics<K>],
        n: usize,
    ) -> Result<usize, Refusal>
        ensures outcome { OutcomeForAll K.relation (cut n) (sheet_of self.old nodes.now columns.now) result (sheet_of self.new nodes.now columns.now) }
        ensures keeps { KeepsForAll K.relation (sheet_of self.old nodes.now columns.now) (sheet_of self.new nodes.now columns.now) }
    {
        cut_on(self, nodes, columns, n)
    }

    /// What a node says of its table. Changes nothing.
    pub fn read<'a, K: Key>(
        &self,
        nodes: &[Node],
        columns: &'a [ColumnStatistics<K>],
        n: usize,
    ) -> Result<NodeView<'a, K>, Refusal>
        ensures value { shown result ≡ read_answer K.relation (sheet_of self.now nodes.now columns.now) n }
        ensures least { Least (read_clear K.relation (sheet_of self.now nodes.now columns.now) n) (shown result) }
        ensures keeps { KeepsForAll K.relation (sheet_of self.now nodes.now columns.now) (sheet_of self.now nodes.now columns.now) }
    {
        read_on(self, nodes, columns, n)
    }
}

/// A node of a sheet. Its columns are its block of column memory.
#[derive(Clone, Copy, PartialEq, Eq, Debug)]
pub struct Node {
    pub rows: Precision<u64>,
    pub bytes: Precision<u64>,
    pub place: usize,
    pub width: usize,
    pub figure: Option<Figure>,
    pub operator: Operator,
}

/// A node without rows and columns.
pub const NO_NODE: Node = Node {
    rows: Precision::Exact(0),
    bytes: Precision::Exact(0),
    place: 0,
    width: 0,
    figure: None,
    operator: Operator::Lay,
};

/// The laws of the sheet, over every run: the contract is the theorem. Whatever
/// list of calls made a sheet of a blank one, some of them refused, it keeps the
/// ceiling, the figures, the shares and the mirrors.
pub fn laws_over_runs<K: Key, E: Estimator<K>>(_estimator: &E)
    ensures { (e : E) (s : Sheet K) → Reached K.Key.relation (E.Estimator.figure e) s → Laws (E.Estimator.figure e) s }
{}
