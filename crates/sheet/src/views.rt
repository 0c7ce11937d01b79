//! A sheet as a call finds it.
ghost use Rattle.std.specs.Prelude.{◌≡◌, ◌+◌, not, ◌&&◌, ◌≤◌, length, nat_le};
ghost use Rattle.std.specs.List.{list_all};
ghost use Rattle.sheet.specs.Sheets.{node_at, block, table_of};
ghost use Rattle.sheet.specs.Views.{seen, told};
ghost use Rattle.sheet.specs.Causes.{no_node_memory, block_inside, in_limits, columns_sound, fit_child};

use crate::checks::{MAX_NODES, MAX_WIDTH};
use crate::{Head, NO_NODE, Node};
use keys::Key;
use stats::{ColumnStatistics, MAX_COUNT, MAX_NODE_BYTES, Precision, all_sound};

/// The head of a sheet, and the memory that a call is handed.
// Written as a literal in each call: of what a constructor answers a proof would know
// its clause alone, and each answer would have to carry it over.
#[derive(Clone, Copy)]
pub(crate) struct View<'a, K> {
    pub head: Head,
    pub nodes: &'a [Node],
    pub columns: &'a [ColumnStatistics<K>],
}

/// What a node says of its table.
#[derive(Clone, Copy)]
pub(crate) struct Table<'a, K> {
    pub rows: Precision<u64>,
    pub bytes: Precision<u64>,
    pub columns: &'a [ColumnStatistics<K>],
}

/// The columns of a node.
// Asked and in no type: where a block lies is a fact of a node and a memory together.
pub(crate) fn block_of<'a, K: Key>(
    columns: &'a [ColumnStatistics<K>],
    node: &Node,
) -> &'a [ColumnStatistics<K>]
    requires { node.now.place + node.now.width ≤ length columns.now }
    ensures { result.now ≡ block columns.now node.now }
{
    &columns[node.place..node.place + node.width]
}

/// The table of a node.
pub(crate) fn table_of<'a, K: Key>(columns: &'a [ColumnStatistics<K>], node: &Node) -> Table<'a, K>
    requires { node.now.place + node.now.width ≤ length columns.now }
    ensures { told result ≡ table_of columns.now node.now }
{
    Table {
        rows: node.rows,
        bytes: node.bytes,
        columns: block_of(columns, node),
    }
}

/// Whether rows, bytes and width of a node are inside the limits.
fn is_in_limits(node: &Node) -> bool
    ensures { result ≡ in_limits node.now }
{
    node.rows.is_at_most(MAX_COUNT)
        && node.bytes.is_at_most(MAX_NODE_BYTES)
        && node.width <= MAX_WIDTH
}

impl<'a, K: Key> View<'a, K> {
    /// The node of a number; one without rows and columns where memory has none.
    // No Option: `node_at` has a node for every number, and what is said of the causes
    // speaks of it, standing or not.
    pub fn node(&self, n: usize) -> Node
        ensures { result ≡ node_at (seen self.now) n }
    {
        self.nodes
            .get(n.saturating_sub(1))
            .map_or(NO_NODE, |node| *node)
    }

    /// Whether a node's block lies in the used part of column memory.
    pub fn is_block_inside(&self, node: &Node) -> bool
        ensures { result ≡ block_inside (seen self.now) node.now }
    {
        node.place <= self.head.used && node.width <= self.head.used - node.place
    }

    /// Whether another node finds room.
    pub fn has_node_room(&self) -> bool
        ensures { result ≡ not (no_node_memory (seen self.now)) }
    {
        self.head.count < MAX_NODES && self.head.count < self.nodes.len()
    }

    /// Whether a node's columns are sound, as far as they can be read.
    fn are_columns_sound(&self, node: &Node) -> bool
        ensures { result ≡ columns_sound K.relation (seen self.now) node.now }
    {
        if self.columns.len() < self.head.used || !self.is_block_inside(node) {
            return true;
        }
        all_sound(block_of(self.columns, node))
    }

    /// Whether a child stands, is inside the limits and has lawful columns.
    pub fn is_fit_child(&self, n: usize) -> bool
        ensures { result ≡ fit_child K.relation (seen self.now) n }
    {
        let node = self.node(n);
        1 <= n && n <= self.head.count && is_in_limits(&node) && self.are_columns_sound(&node)
    }

    /// Whether all children are fit.
    pub fn are_fit(&self, children: &[usize]) -> bool
        ensures { result ≡ list_all (fit_child K.relation (seen self.now)) children.now }
    {
        children.iter().all(|n| self.is_fit_child(*n))
    }

    /// Whether a block of this width finds room after the used part.
    fn has_room_for(&self, width: u128) -> bool
        ensures { result ≡ nat_le (self.now.head.used + width) (length self.now.columns.now) }
    {
        (self.head.used as u128).saturating_add(width) <= self.columns.len() as u128
    }

    /// Whether the blocks of all children lie in the used part.
    fn are_inside(&self, children: &[usize]) -> bool
        ensures { result ≡ list_all (λ n. block_inside (seen self.now) (node_at (seen self.now) n)) children.now }
    {
        children
            .iter()
            .all(|n| self.is_block_inside(&self.node(*n)))
    }

    /// Whether the blocks of all children lie in the used part, and a block of
    /// this width finds room after it.
    pub fn has_column_room(&self, children: &[usize], width: u128) -> bool
        ensures { result ≡ (nat_le (self.now.head.used + width) (length self.now.columns.now) && list_all (λ n. block_inside (seen self.now) (node_at (seen self.now) n)) children.now) }
    {
        self.has_room_for(width) && self.are_inside(children)
    }
}
