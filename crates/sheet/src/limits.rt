//! Limits: rows after a skip, and a fetch at most.
ghost use Rattle.std.specs.Prelude.{◌≡◌, ◌+◌, ◌≤◌, length, map};
ghost use Rattle.stats.specs.Columns.{column_inexact};
ghost use Rattle.sheet.specs.Sheets.{sheet_of, block};
ghost use Rattle.sheet.specs.Views.{seen};
ghost use Rattle.sheet.specs.Calls.{order, limit};
ghost use Rattle.sheet.specs.Made.{fetched, limit_rows};
ghost use Rattle.sheet.specs.Causes.{early_refusal};
ghost use Rattle.sheet.specs.Steps.{stepped, checked, step, no_figure};

use crate::blocks::put_loosened;
use crate::calls::carry_out;
use crate::checks::{MAX_WIDTH, refuse_unless};
use crate::views::{View, block_of};
use crate::{Head, Node, Operator, Refusal};
use keys::Key;
use stats::{ColumnStatistics, Precision, rescale_byte_size};

/// At most so many rows.
fn fetch_of(fetch: Option<u64>, rows: u64) -> u64
    ensures { result ≡ fetched fetch rows }
{
    fetch.map_or(rows, |most| rows.min(most))
}

/// The rows of a limit, from its child's.
fn limited_rows(skip: u64, fetch: Option<u64>, rows: Precision<u64>) -> Precision<u64>
    ensures { result ≡ limit_rows skip fetch rows }
{
    rows.map(|n| fetch_of(fetch, n.saturating_sub(skip)))
        .or_else(|| fetch.map_or(Precision::Absent, Precision::Inexact))
}

impl<'a, K: Key> View<'a, K> {
    /// The causes of 1 to 6 of a limit of a node.
    fn check_limit(&self, child: usize, skip: u64, fetch: Option<u64>) -> Result<(), Refusal>
        ensures { result ≡ checked (early_refusal K.relation (seen self.now) (limit child skip fetch)) }
    {
        let width = self.node(child).width;
        refuse_unless(self.has_node_room(), Refusal::NodeMemory)?;
        refuse_unless(self.are_fit(&[child]), Refusal::Child)?;
        refuse_unless(width <= MAX_WIDTH, Refusal::Width)?;
        let memory = self.has_column_room(&[child], width as u128);
        refuse_unless(memory, Refusal::ColumnMemory)
    }
}

/// Limits a node's rows.
pub(crate) fn limited_on<K: Key>(
    head: &mut Head,
    nodes: &mut [Node],
    columns: &mut [ColumnStatistics<K>],
    child: usize,
    skip: u64,
    fetch: Option<u64>,
) -> Result<usize, Refusal>
    ensures { stepped result (sheet_of head.new nodes.new columns.new) ≡ step K.relation no_figure (order (limit child skip fetch)) (sheet_of head.old nodes.old columns.old) }
{
    let view = View {
        head: *head,
        nodes,
        columns,
    };
    view.check_limit(child, skip, fetch)?;
    let from = view.node(child);
    let rows = limited_rows(skip, fetch, from.rows);
    let bytes = rescale_byte_size(from.bytes, from.rows, rows);
    let node = Node {
        rows,
        bytes,
        place: head.used,
        width: from.width,
        figure: None,
        operator: Operator::Limit { child, skip, fetch },
    };
    carry_out(
        head,
        nodes,
        columns,
        node,
        |free, used|
            requires inside { from.place + from.width ≤ length used.now }
            requires wide { length free.old ≡ length (block used.now from) }
            ensures { free.new ≡ map column_inexact (block used.now from) }
        { put_loosened(free, block_of(used, &from)) },
    )
}
