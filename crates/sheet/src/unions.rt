//! Unions.
ghost use Rattle.std.specs.Prelude.{◌≡◌, ◌&&◌, length, fold, nat_eq, nat_le};
ghost use Rattle.std.specs.List.{list_all};
ghost use Rattle.stats.specs.declared.exactness.Precision.TheVariants.{Exact};
ghost use Rattle.stats.specs.Precisions.{total};
ghost use Rattle.sheet.specs.Sheets.{sheet_of, node_at};
ghost use Rattle.sheet.specs.Views.{seen};
ghost use Rattle.sheet.specs.Calls.{order, union};
ghost use Rattle.sheet.specs.Causes.{union_width, width_fits, columns_fit, max_children, early_refusal};
ghost use Rattle.sheet.specs.Steps.{stepped, checked, step, no_figure};

use crate::blocks::put_unknown;
use crate::calls::carry_out;
use crate::checks::{MAX_WIDTH, refuse_unless};
use crate::shorts::short_of;
use crate::views::View;
use crate::{Head, Node, Operator, Refusal};
use keys::Key;
use stats::{ColumnStatistics, Precision, rescale_byte_size};

/// The most children of a union.
pub const MAX_CHILDREN: usize = 8;

/// Whether there are children, and not too many.
fn is_child_count(children: &[usize]) -> bool
    ensures { result ≡ (nat_le 1 (length children.now) && nat_le (length children.now) max_children) }
{
    !children.is_empty() && children.len() <= MAX_CHILDREN
}

impl<'a, K: Key> View<'a, K> {
    /// The width of the first child.
    fn union_width(&self, children: &[usize]) -> usize
        ensures { result ≡ union_width (seen self.now) children.now }
    {
        // Not by first() and map_or: the proof didn't close.
        match children {
            [first, ..] => self.node(*first).width,
            [] => 0,
        }
    }

    /// Whether all children are so wide.
    fn are_wide(&self, children: &[usize], width: usize) -> bool
        ensures { result ≡ list_all (λ c. nat_eq (node_at (seen self.now) c).width width) children.now }
    {
        children.iter().all(|n| self.node(*n).width == width)
    }

    /// Whether all children are as wide as the first, and not too wide.
    fn are_narrow(&self, children: &[usize]) -> bool
        ensures { result ≡ width_fits (seen self.now) (union children.now) }
    {
        let width = self.union_width(children);
        self.are_wide(children, width) && width <= MAX_WIDTH
    }

    /// Whether the children's blocks, and a block as wide as the first, fit column
    /// memory.
    fn fits_union(&self, children: &[usize]) -> bool
        ensures { result ≡ columns_fit (seen self.now) (union children.now) }
    {
        let width = self.union_width(children);
        self.has_column_room(children, width as u128)
    }

    /// The causes of 1 to 6 of a union, which makes so many columns as its first
    /// child has.
    fn check_union(&self, children: &[usize]) -> Result<(), Refusal>
        ensures { result ≡ checked (early_refusal K.relation (seen self.now) (union children.now)) }
    {
        refuse_unless(self.has_node_room(), Refusal::NodeMemory)?;
        refuse_unless(self.are_fit(children), Refusal::Child)?;
        refuse_unless(is_child_count(children), Refusal::Count)?;
        refuse_unless(self.are_narrow(children), Refusal::Width)?;
        refuse_unless(self.fits_union(children), Refusal::ColumnMemory)
    }

    /// Rows and bytes of all children, each added up from Exact 0.
    fn sums(&self, children: &[usize]) -> (Precision<u64>, Precision<u64>)
        ensures rows { result.0 ≡ fold (λ sum c. total sum (node_at (seen self.now) c).rows) (Exact 0) children.now }
        ensures bytes { result.1 ≡ fold (λ sum c. total sum (node_at (seen self.now) c).bytes) (Exact 0) children.now }
    {
        let zero = Precision::Exact(0);
        let rows = children
            .iter()
            .fold(zero, |sum, n| sum.add(self.node(*n).rows));
        let bytes = children
            .iter()
            .fold(zero, |sum, n| sum.add(self.node(*n).bytes));
        (rows, bytes)
    }
}

/// Puts the rows of nodes one after the other.
pub(crate) fn united_on<K: Key>(
    head: &mut Head,
    nodes: &mut [Node],
    columns: &mut [ColumnStatistics<K>],
    children: &[usize],
) -> Result<usize, Refusal>
    ensures { stepped result (sheet_of head.new nodes.new columns.new) ≡ step K.relation no_figure (order (union children.now)) (sheet_of head.old nodes.old columns.old) }
{
    let view = View {
        head: *head,
        nodes,
        columns,
    };
    view.check_union(children)?;
    let (rows, bytes) = view.sums(children);
    let bytes = rescale_byte_size(bytes, rows, rows);
    let width = view.union_width(children);
    let node = Node {
        rows,
        bytes,
        place: head.used,
        width,
        figure: None,
        operator: Operator::Union {
            children: short_of(0, children),
        },
    };
    carry_out(head, nodes, columns, node, |block, _| {
        put_unknown(block)
    })
}
