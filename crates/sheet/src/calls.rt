//! The calls, over memory that is handed in.
ghost use Rattle.std.specs.Prelude.{◌≡◌, ◌+◌, ◌<◌, ◌≤◌, List, None, length, map, slice_set};
ghost use Rattle.std.proofs.Math.Seq.{paste};
ghost use Rattle.stats.specs.Trim.{trimmed};
ghost use Rattle.sheet.specs.Sheets.{sheet_of};
ghost use Rattle.sheet.specs.Calls.{order, lay, cut};
ghost use Rattle.sheet.specs.Made.{Made};
ghost use Rattle.sheet.specs.Steps.{stepped, step, no_figure, node_made, carried};
ghost use Rattle.sheet.specs.Writers.{MayWrite, Leaves};
ghost use Rattle.stats.specs.declared.columns.ColumnStatistics.{ColumnStatistics};

use crate::blocks::trim_all;
use crate::checks::check_size;
use crate::views::View;
use crate::{Head, Node, Operator, Refusal};
use keys::Key;
use stats::{ColumnStatistics, Precision};

/// The rows that the columns of a new node are trimmed to: its own, whatever made it.
fn rows_to_trim(node: &Node) -> Precision<u64>
    ensures { result ≡ node.now.rows }
{
    node.rows
}

/// Adds a node after the others. Its columns stand after the used part: `write` writes them
/// there, from what it reads of the used part, and they are trimmed to the node's rows.
// Fn, though it runs once: of an FnOnce over a borrow a proof learns no result.
pub(crate) fn add_node<K: Key, W: Fn(&mut [ColumnStatistics<K>], &[ColumnStatistics<K>])>(
    head: &mut Head,
    nodes: &mut [Node],
    columns: &mut [ColumnStatistics<K>],
    node: Node,
    write: W,
) -> usize
    requires room { head.old.count < length nodes.old }
    requires space { head.old.used + node.width ≤ length columns.old }
    requires writes { MayWrite W.Fn write head.old.used node.width columns.old }
    ensures number { result ≡ head.old.count + 1 }
    ensures counts { head.new ≡ record { count = head.old.count + 1; used = head.old.used + node.width } }
    ensures adds { nodes.new ≡ slice_set nodes.old head.old.count node }
    ensures trims { (m : List (ColumnStatistics K)) → Leaves W.Fn write head.old.used node.width columns.old m → columns.new ≡ paste columns.old head.old.used (map (trimmed node.rows) m) node.width }
{
    let (used, free) = columns.split_at_mut(head.used);
    let block = &mut free[..node.width];
    write(block, used);
    trim_all(block, rows_to_trim(&node));
    nodes[head.count] = node;
    head.count += 1;
    head.used += node.width;
    head.count
}

/// Adds a node after the others, unless its rows or bytes are over the limits.
pub(crate) fn carry_out<K: Key, W: Fn(&mut [ColumnStatistics<K>], &[ColumnStatistics<K>])>(
    head: &mut Head,
    nodes: &mut [Node],
    columns: &mut [ColumnStatistics<K>],
    node: Node,
    write: W,
) -> Result<usize, Refusal>
    requires room { head.old.count < length nodes.old }
    requires space { head.old.used + node.width ≤ length columns.old }
    requires writes { MayWrite W.Fn write head.old.used node.width columns.old }
    ensures { (m : Made K) → node ≡ node_made node.operator m.rows m.bytes m.figure head.old.used (length m.columns) → Leaves W.Fn write head.old.used node.width columns.old m.columns → stepped result (sheet_of head.new nodes.new columns.new) ≡ carried None node.operator m (sheet_of head.old nodes.old columns.old) }
{
    check_size(node.rows, node.bytes)?;
    Ok(add_node(head, nodes, columns, node, write))
}

// The calls take head, nodes and columns by themselves: they are handed in so, and a
// proof loses one half of a slice that is split where a struct holds the other.

/// Lays a table.
pub(crate) fn laid_on<K: Key>(
    head: &mut Head,
    nodes: &mut [Node],
    columns: &mut [ColumnStatistics<K>],
    rows: Precision<u64>,
    bytes: Precision<u64>,
    laid: &[ColumnStatistics<K>],
) -> Result<usize, Refusal>
    ensures { stepped result (sheet_of head.new nodes.new columns.new) ≡ step K.relation no_figure (order (lay rows bytes laid.now)) (sheet_of head.old nodes.old columns.old) }
{
    let view = View {
        head: *head,
        nodes,
        columns,
    };
    view.check_lay(rows, bytes, laid)?;
    let node = Node {
        rows,
        bytes,
        place: head.used,
        width: laid.len(),
        figure: None,
        operator: Operator::Lay,
    };
    Ok(add_node(head, nodes, columns, node, |block, _| {
        block.copy_from_slice(laid)
    }))
}

/// Keeps nodes 1 to `n`; the memory after them is used again.
pub(crate) fn cut_on<K: Key>(
    head: &mut Head,
    nodes: &[Node],
    columns: &[ColumnStatistics<K>],
    n: usize,
) -> Result<usize, Refusal>
    ensures { stepped result (sheet_of head.new nodes.now columns.now) ≡ step K.relation no_figure (cut n) (sheet_of head.old nodes.now columns.now) }
{
    let view = View {
        head: *head,
        nodes,
        columns,
    };
    view.check_cut(n)?;
    let used = if n == 0 {
        0
    } else {
        let last = view.node(n);
        last.place + last.width
    };
    head.count = n;
    head.used = used;
    Ok(n)
}
