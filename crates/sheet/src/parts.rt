//! Semi and anti joins: a part of a table's rows.
ghost use Rattle.std.specs.Prelude.{◌≡◌, length, fold};
ghost use Rattle.std.specs.List.{list_any};
ghost use Rattle.stats.specs.declared.exactness.Precision.TheVariants.{Exact};
ghost use Rattle.stats.specs.Precisions.{inexact, total};
ghost use Rattle.stats.specs.Scaling.{scaled};
ghost use Rattle.sheet.specs.Made.{among, key_of, key_columns, nulls_kept, column_kept, columns_kept, rows_kept};
ghost use Rattle.sheet.specs.Views.{anti};

use keys::Key;
use questions::{Figure, JoinSide, KeyPair, KeySide, NullEquality};
use stats::{ColumnStatistics, Precision, scale_subset_count};

/// The rows that have a match, or those that have none.
#[derive(Clone, Copy, PartialEq, Eq, Debug)]
pub(crate) enum PartKind {
    Semi,
    Anti,
}

/// A semi or an anti join of the rows on a side, which keeps `new_rows` of
/// `old_rows`.
#[derive(Clone, Copy)]
pub(crate) struct Part<'p> {
    pub kind: PartKind,
    pub null_equality: NullEquality,
    pub side: JoinSide,
    pub on: &'p [KeyPair],
    pub old_rows: u64,
    pub new_rows: u64,
}

/// Whether a pair of two columns has this one on the side.
fn is_key(side: JoinSide, pair: &KeyPair, index: usize) -> bool
    ensures { result ≡ among index (key_of side pair.now.left pair.now.right) }
{
    match (side, pair.left, pair.right) {
        (JoinSide::Left, KeySide::Column(key), KeySide::Column(_)) => index == key,
        (JoinSide::Right, KeySide::Column(_), KeySide::Column(key)) => index == key,
        _ => false,
    }
}

/// Whether a column is a key on the side.
fn is_key_column(side: JoinSide, on: &[KeyPair], index: usize) -> bool
    ensures { result ≡ list_any (λ p. among index (key_of side p.left p.right)) on.now }
{
    on.iter().any(|pair| is_key(side, pair, index))
}

impl<'p> Part<'p> {
    /// Nulls of a column in the part.
    fn nulls(&self, key: bool, nulls: Precision<u64>) -> Precision<u64>
        ensures { result ≡ nulls_kept (anti self.now.kind) self.now.null_equality key self.now.old_rows self.now.new_rows nulls }
    {
        match (self.null_equality, key, self.kind) {
            (NullEquality::NullEqualsNothing, true, PartKind::Semi) => Precision::Exact(0),
            (NullEquality::NullEqualsNothing, true, PartKind::Anti) => {
                nulls.to_inexact().capped_at(self.new_rows)
            }
            _ => scale_subset_count(nulls, self.old_rows, self.new_rows).capped_at(self.new_rows),
        }
    }

    /// The column at `index` in the part.
    fn column<K: Key>(&self, index: usize, column: ColumnStatistics<K>) -> ColumnStatistics<K>
        ensures { result ≡ column_kept (anti self.now.kind) self.now.null_equality (among index (key_columns self.now.side self.now.on.now)) self.now.old_rows self.now.new_rows column }
    {
        let key = is_key_column(self.side, self.on, index);
        let null_count = self.nulls(key, column.null_count);
        let not_null = self.new_rows.saturating_sub(null_count.or_zero());
        ColumnStatistics {
            null_count,
            distinct_count: column.distinct_count.to_inexact().capped_at(not_null),
            byte_size: scale_subset_count(column.byte_size, self.old_rows, self.new_rows),
            min_value: column.min_value.to_inexact(),
            max_value: column.max_value.to_inexact(),
        }
    }

    /// Writes the columns of a table in the part.
    pub fn put<K: Key>(&self, block: &mut [ColumnStatistics<K>], columns: &[ColumnStatistics<K>])
        requires { length block.old ≡ length columns.now }
        ensures { block.new ≡ columns_kept (anti self.now.kind) self.now.null_equality (key_columns self.now.side self.now.on.now) self.now.old_rows self.now.new_rows 0 columns.now }
    {
        // Not by iter_mut(), with zip or enumerate: after that a proof knows the block's
        // length alone.
        for (i, column) in columns.iter().enumerate() {
            block[i] = self.column(i, *column);
        }
    }
}

/// The bytes of the columns in the part, together.
pub(crate) fn bytes_in<K: Key>(
    old_rows: u64,
    new_rows: u64,
    columns: &[ColumnStatistics<K>],
) -> Precision<u64>
    ensures { result ≡ inexact (fold (λ sum c. total sum (scaled c.byte_size old_rows new_rows)) (Exact 0) columns.now) }
{
    columns
        .iter()
        .fold(Precision::Exact(0), |sum, column| {
            sum.add(scale_subset_count(column.byte_size, old_rows, new_rows))
        })
        .to_inexact()
}

/// The figure, or the kept rows made Inexact.
pub(crate) fn rows_in(figure: Option<Figure>, rows: Precision<u64>) -> Precision<u64>
    ensures { result ≡ rows_kept figure rows }
{
    figure.map_or(rows.to_inexact(), Precision::from)
}
