//! Groupings by keys.
ghost use Rattle.std.specs.Prelude.{◌≡◌, ℕ, ◌+◌, ◌≤◌, map, length, Some, fold};
ghost use Rattle.std.specs.List.{list_all};
ghost use Rattle.stats.specs.declared.exactness.Precision.{Precision};
ghost use Rattle.stats.specs.Precisions.{known};
ghost use Rattle.questions.specs.Types.{key_inside};
ghost use Rattle.sheet.specs.Sheets.{sheet_of, table_of};
ghost use Rattle.sheet.specs.Views.{seen};
ghost use Rattle.sheet.specs.Calls.{order, group_of};
ghost use Rattle.sheet.specs.Made.{whole_mode, key_groups, groups_times, group_count, at_most_rows, key_column, groups_rows, groups_bytes, grouped_by};
ghost use Rattle.sheet.specs.Causes.{early_refusal};
ghost use Rattle.sheet.specs.Steps.{stepped, checked, step, no_figure};

use crate::blocks::put_unknown;
use crate::calls::carry_out;
use crate::checks::{MAX_WIDTH, refuse_unless};
use crate::shorts::short_of;
use crate::views::{View, block_of};
use crate::{AggregateMode, Head, Node, Operator, Refusal};
use keys::Key;
use questions::{KeySide, MAX_PAIRS};
use stats::{ColumnStatistics, Precision, rescale_byte_size, stopping_product};

/// A grouping of a node's rows by keys, in so many sets, with so many columns
/// more.
#[derive(Clone, Copy, PartialEq, Eq, Debug)]
pub struct Grouping<'k> {
    pub mode: AggregateMode,
    pub sets: u64,
    pub extras: usize,
    pub child: usize,
    pub by: &'k [KeySide],
}

/// Whether the mode gives whole groups.
fn is_whole(mode: AggregateMode) -> bool
    ensures { result ≡ whole_mode mode }
{
    match mode {
        AggregateMode::Partial | AggregateMode::PartialReduce => false,
        AggregateMode::Final
        | AggregateMode::FinalPartitioned
        | AggregateMode::Single
        | AggregateMode::SinglePartitioned => true,
    }
}

/// Whether all keys are inside a table so wide.
fn are_keys_inside(width: usize, by: &[KeySide]) -> bool
    ensures { result ≡ list_all (key_inside width) by.now }
{
    by.iter().all(|key| key.is_inside(width))
}

/// The groups that a key alone gives, if they are known and not 0.
fn groups_of<K: Key>(columns: &[ColumnStatistics<K>], key: KeySide) -> Option<u64>
    ensures { result ≡ key_groups columns.now key }
{
    let count = columns.get(key.column()?)?.distinct_count.get_value();
    count.filter(|count| *count > 0)
}

/// The groups that all keys give together: a product that stops at the greatest
/// number of 64 bits.
fn product_of<K: Key>(columns: &[ColumnStatistics<K>], by: &[KeySide]) -> Option<u64>
    ensures { result ≡ fold (λ p k. groups_times p (key_groups columns.now k)) (Some 1) by.now }
{
    by.iter().fold(Some(1), |product, key| {
        stopping_product(product, groups_of(columns, *key))
    })
}

/// The number of groups, if it is known.
fn count_groups<K: Key>(columns: &[ColumnStatistics<K>], grouping: &Grouping<'_>) -> Option<u64>
    ensures { result ≡ group_count grouping.now.mode grouping.now.sets grouping.now.by.now columns.now }
{
    if is_whole(grouping.mode) && grouping.sets <= 1 && !grouping.by.is_empty() {
        product_of(columns, grouping.by)
    } else {
        None
    }
}

/// At most the known rows.
fn at_most_rows(groups: u64, rows: Precision<u64>) -> u64
    ensures { result ≡ at_most_rows groups (known rows) }
{
    rows.get_value().map_or(groups, |rows| groups.min(rows))
}

/// Rows and bytes of so many groups of a node's rows.
fn group_size(groups: Option<u64>, from: &Node) -> (Precision<u64>, Precision<u64>)
    ensures rows { result.0 ≡ groups_rows groups from.now.rows }
    ensures bytes { result.1 ≡ groups_bytes groups from.now.rows from.now.bytes }
{
    // Not by map_or: the pair of two Absent would stand before the sizes.
    match groups {
        Some(groups) => {
            let rows = Precision::Inexact(at_most_rows(groups, from.rows));
            (rows, rescale_byte_size(from.bytes, from.rows, rows))
        }
        None => (Precision::Absent, Precision::Absent),
    }
}

/// The column of a key.
fn key_column<K: Key>(columns: &[ColumnStatistics<K>], key: KeySide) -> ColumnStatistics<K>
    ensures { result ≡ key_column columns.now key }
{
    key.column()
        .and_then(|index| columns.get(index))
        .map_or(ColumnStatistics::unknown(), |column| column.to_inexact())
}

/// Writes the key columns.
fn put_keys<K: Key>(
    block: &mut [ColumnStatistics<K>],
    columns: &[ColumnStatistics<K>],
    by: &[KeySide],
)
    requires { length block.old ≡ length by.now }
    ensures { block.new ≡ map (key_column columns.now) by.now }
{
    // Not by iter_mut().zip(..): after that a proof knows the block's length alone. And not
    // one loop with that of a part: of its closure it would know what it may answer.
    for (i, key) in by.iter().enumerate() {
        block[i] = key_column(columns, *key);
    }
}

/// Writes the columns of a grouping.
fn put_grouped<K: Key>(
    block: &mut [ColumnStatistics<K>],
    columns: &[ColumnStatistics<K>],
    grouping: &Grouping<'_>,
    groups: Option<u64>,
)
    requires { length block.old ≡ length grouping.now.by.now + grouping.now.extras }
    ensures { (rows bytes : Precision ℕ) → block.new ≡ (grouped_by groups grouping.now.extras grouping.now.by.now (record { rows = rows; bytes = bytes; columns = columns.now })).columns }
{
    if groups.is_none() {
        return put_unknown(block);
    }
    let (keys, extras) = block.split_at_mut(grouping.by.len());
    put_keys(keys, columns, grouping.by);
    put_unknown(extras)
}

impl<'a, K: Key> View<'a, K> {
    /// The causes of 1 to 6 of a grouping of a node.
    fn check_group(&self, grouping: &Grouping<'_>) -> Result<(), Refusal>
        ensures { result ≡ checked (early_refusal K.relation (seen self.now) (group_of grouping.now)) }
    {
        let by = grouping.by;
        let child = self.node(grouping.child).width;
        let width = by.len() as u128 + grouping.extras as u128;
        refuse_unless(self.has_node_room(), Refusal::NodeMemory)?;
        refuse_unless(self.are_fit(&[grouping.child]), Refusal::Child)?;
        refuse_unless(by.len() <= MAX_PAIRS, Refusal::Count)?;
        refuse_unless(are_keys_inside(child, by), Refusal::KeyIndex)?;
        refuse_unless(width <= MAX_WIDTH as u128, Refusal::Width)?;
        let memory = self.has_column_room(&[grouping.child], width);
        refuse_unless(memory, Refusal::ColumnMemory)
    }
}

/// Groups a node's rows by keys.
pub(crate) fn grouped_on<K: Key>(
    head: &mut Head,
    nodes: &mut [Node],
    columns: &mut [ColumnStatistics<K>],
    grouping: &Grouping<'_>,
) -> Result<usize, Refusal>
    ensures { stepped result (sheet_of head.new nodes.new columns.new) ≡ step K.relation no_figure (order (group_of grouping.now)) (sheet_of head.old nodes.old columns.old) }
{
    let view = View {
        head: *head,
        nodes,
        columns,
    };
    view.check_group(grouping)?;
    let from = view.node(grouping.child);
    let groups = count_groups(block_of(columns, &from), grouping);
    let (rows, bytes) = group_size(groups, &from);
    let width = grouping.by.len() + grouping.extras;
    let node = Node {
        rows,
        bytes,
        place: head.used,
        width,
        figure: None,
        operator: Operator::Group {
            mode: grouping.mode,
            sets: grouping.sets,
            extras: grouping.extras as u64,
            child: grouping.child,
            by: short_of(KeySide::Column(0), grouping.by),
        },
    };
    carry_out(
        head,
        nodes,
        columns,
        node,
        |free, used|
            requires inside { from.place + from.width ≤ length used.now }
            requires wide { length free.old ≡ length grouping.now.by.now + grouping.now.extras }
            ensures { free.new ≡ (grouped_by groups grouping.entry.now.extras grouping.entry.now.by.now (table_of used.now from)).columns }
        { put_grouped(free, block_of(used, &from), grouping, groups) },
    )
}
