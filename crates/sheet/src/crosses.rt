//! Cross joins.
ghost use Rattle.std.specs.Prelude.{◌≡◌, ◌*◌, ◌+◌, ◌≤◌, ◌++◌, length, true};
ghost use Rattle.stats.specs.Precisions.{both, at_most};
ghost use Rattle.stats.specs.Limits.{max_count};
ghost use Rattle.sheet.specs.Sheets.{sheet_of, block};
ghost use Rattle.sheet.specs.Views.{seen};
ghost use Rattle.sheet.specs.Calls.{order, cross};
ghost use Rattle.sheet.specs.Causes.{early_refusal};
ghost use Rattle.sheet.specs.Steps.{stepped, checked, step, no_figure};

use crate::blocks::put_both;
use crate::calls::carry_out;
use crate::checks::{MAX_WIDTH, refuse_unless};
use crate::views::{View, block_of};
use crate::{Head, Node, Operator, Refusal};
use keys::Key;
use stats::{ColumnStatistics, Precision};

/// Every row of the one with every row of the other.
fn crossed_rows(left: Precision<u64>, right: Precision<u64>) -> Precision<u64>
    requires few { at_most max_count left ≡ true }
    requires others { at_most max_count right ≡ true }
    ensures { result ≡ both ◌*◌ left right }
{
    left.zip(right).map(|(l, r)| l * r)
}

impl<'a, K: Key> View<'a, K> {
    /// The causes of 1 to 6 of a cross join of two nodes.
    fn check_cross(&self, left: usize, right: usize) -> Result<(), Refusal>
        ensures { result ≡ checked (early_refusal K.relation (seen self.now) (cross left right)) }
    {
        let children = [left, right];
        let width = self.node(left).width as u128 + self.node(right).width as u128;
        refuse_unless(self.has_node_room(), Refusal::NodeMemory)?;
        refuse_unless(self.are_fit(&children), Refusal::Child)?;
        refuse_unless(width <= MAX_WIDTH as u128, Refusal::Width)?;
        let memory = self.has_column_room(&children, width);
        refuse_unless(memory, Refusal::ColumnMemory)
    }
}

/// Puts every row of one node beside every row of another.
pub(crate) fn crossed_on<K: Key>(
    head: &mut Head,
    nodes: &mut [Node],
    columns: &mut [ColumnStatistics<K>],
    l: usize,
    r: usize,
) -> Result<usize, Refusal>
    ensures { stepped result (sheet_of head.new nodes.new columns.new) ≡ step K.relation no_figure (order (cross l r)) (sheet_of head.old nodes.old columns.old) }
{
    let view = View {
        head: *head,
        nodes,
        columns,
    };
    view.check_cross(l, r)?;
    let (left, right) = (view.node(l), view.node(r));
    let rows = crossed_rows(left.rows, right.rows);
    let width = left.width + right.width;
    let node = Node {
        rows,
        bytes: Precision::Absent,
        place: head.used,
        width,
        figure: None,
        operator: Operator::Cross { left: l, right: r },
    };
    carry_out(
        head,
        nodes,
        columns,
        node,
        |free, used|
            requires left_inside { left.place + left.width ≤ length used.now }
            requires right_inside { right.place + right.width ≤ length used.now }
            requires wide { length free.old ≡ length (block used.now left) + length (block used.now right) }
            ensures { free.new ≡ block used.now left ++ block used.now right }
        { put_both(free, block_of(used, &left), block_of(used, &right)) },
    )
}
