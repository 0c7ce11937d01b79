//! Whether a call can be carried out.
ghost use Rattle.std.specs.Prelude.{◌≡◌, not, Ok, Err, if◌then◌else◌, position};
ghost use Rattle.std.specs.Option.{option_map};
ghost use Rattle.stats.specs.Columns.{sound};
ghost use Rattle.sheet.specs.declared.refusals.Refusal.TheVariants as refusal;
ghost use Rattle.sheet.specs.Views.{seen};
ghost use Rattle.sheet.specs.Calls.{lay};
ghost use Rattle.sheet.specs.Causes.{sizes, first_unsound, order_refusal, cut_inside, cut_refusal};
ghost use Rattle.sheet.specs.Steps.{no_figure, checked};

use crate::Refusal;
use crate::views::View;
use keys::Key;
use stats::{ColumnStatistics, MAX_COUNT, MAX_NODE_BYTES, Precision};

/// The most nodes of a sheet.
pub const MAX_NODES: usize = 256;

/// The most columns of a node.
pub const MAX_WIDTH: usize = 64;

/// The first column that is over the limits or unlawful.
pub(crate) fn find_unsound<K: Key>(laid: &[ColumnStatistics<K>]) -> Option<usize>
    ensures { result ≡ position (λ c. not (sound K.relation c)) laid.now }
{
    laid.iter().position(|column| !column.is_sound())
}

/// The cause of 9.
fn check_columns<K: Key>(laid: &[ColumnStatistics<K>]) -> Result<(), Refusal>
    ensures { result ≡ checked (option_map refusal.Column (first_unsound K.relation laid.now)) }
{
    find_unsound(laid).map_or(Ok(()), |index| Err(Refusal::Column(index)))
}

/// The refusal, unless all is fine.
// Each call asks its causes with this in the order of their numbers. Causes 1 and 2,
// and 5 and 6, in a function for all calls: the proof didn't close but for a limit.
pub(crate) fn refuse_unless(fine: bool, refusal: Refusal) -> Result<(), Refusal>
    ensures { result ≡ (if fine then Ok tt else Err refusal) }
{
    if fine { Ok(()) } else { Err(refusal) }
}

/// The least cause of 7 and 8.
// Rows and bytes by themselves: nodes, tables and views have them as fields.
pub(crate) fn check_size(rows: Precision<u64>, bytes: Precision<u64>) -> Result<(), Refusal>
    ensures { result ≡ checked (sizes rows bytes) }
{
    refuse_unless(rows.is_at_most(MAX_COUNT), Refusal::Rows)?;
    refuse_unless(bytes.is_at_most(MAX_NODE_BYTES), Refusal::Bytes)
}

impl<'a, K: Key> View<'a, K> {
    /// The least cause for which a table cannot be laid.
    pub fn check_lay(
        &self,
        rows: Precision<u64>,
        bytes: Precision<u64>,
        laid: &[ColumnStatistics<K>],
    ) -> Result<(), Refusal>
        ensures { result ≡ checked (order_refusal K.relation no_figure (seen self.now) (lay rows bytes laid.now)) }
    {
        refuse_unless(self.has_node_room(), Refusal::NodeMemory)?;
        refuse_unless(laid.len() <= MAX_WIDTH, Refusal::Width)?;
        let memory = self.has_column_room(&[], laid.len() as u128);
        refuse_unless(memory, Refusal::ColumnMemory)?;
        check_size(rows, bytes)?;
        check_columns(laid)
    }

    /// Whether a cut to a node leaves column memory in order; a cut to 0 has no
    /// block.
    fn is_cut_inside(&self, n: usize) -> bool
        ensures { result ≡ cut_inside (seen self.now) n }
    {
        n == 0 || self.is_block_inside(&self.node(n))
    }

    /// The least cause for which the sheet cannot be cut to a node.
    pub fn check_cut(&self, n: usize) -> Result<(), Refusal>
        ensures { result ≡ checked (cut_refusal (seen self.now) n) }
    {
        refuse_unless(self.head.count <= self.nodes.len(), Refusal::NodeMemory)?;
        refuse_unless(n <= self.head.count, Refusal::Child)?;
        let inside = self.head.used <= self.columns.len() && self.is_cut_inside(n);
        refuse_unless(inside, Refusal::ColumnMemory)
    }
}
