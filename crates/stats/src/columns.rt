//! What is known of a column's values.
ghost use Rattle.std.specs.Prelude.{◌≡◌};
ghost use Rattle.stats.specs.Columns.{unknown_column, column_inexact, lawful, within_limits, sound};
ghost use Rattle.std.specs.List.{list_all};
ghost use Rattle.stats.specs.Trim.{trimmed, Trims};

use crate::Precision;
use crate::limits::{MAX_COLUMN_BYTES, MAX_COUNT};
use keys::{Key, Relation};

/// Nulls, distinct values, bytes, lowest and highest value of a column.
#[derive(Clone, Copy, PartialEq, Eq, Debug)]
pub struct ColumnStatistics<K> {
    pub null_count: Precision<u64>,
    pub distinct_count: Precision<u64>,
    pub byte_size: Precision<u64>,
    pub min_value: Precision<K>,
    pub max_value: Precision<K>,
}

impl<K: Key> ColumnStatistics<K> {
    /// A column of which nothing is known.
    // No derived Default: that would ask for a default of `K`.
    pub fn unknown() -> ColumnStatistics<K>
        ensures { result ≡ unknown_column }
    {
        ColumnStatistics {
            null_count: Precision::Absent,
            distinct_count: Precision::Absent,
            byte_size: Precision::Absent,
            min_value: Precision::Absent,
            max_value: Precision::Absent,
        }
    }

    /// All five made Inexact.
    pub fn to_inexact(self) -> ColumnStatistics<K>
        ensures { result ≡ column_inexact self }
    {
        ColumnStatistics {
            null_count: self.null_count.to_inexact(),
            distinct_count: self.distinct_count.to_inexact(),
            byte_size: self.byte_size.to_inexact(),
            min_value: self.min_value.to_inexact(),
            max_value: self.max_value.to_inexact(),
        }
    }

    /// Whether the highest value, where both are present, is at or after the
    /// lowest.
    pub fn is_lawful(&self) -> bool
        ensures { result ≡ lawful K.relation self.now }
    {
        let (Some(low), Some(high)) = (self.min_value.get_value(), self.max_value.get_value())
        else {
            return true;
        };
        matches!(high.compare(low), Relation::Equal | Relation::After)
    }

    /// Whether the present counts are at most their limits.
    pub fn is_within_limits(&self) -> bool
        ensures { result ≡ within_limits self.now }
    {
        self.null_count.is_at_most(MAX_COUNT)
            && self.distinct_count.is_at_most(MAX_COUNT)
            && self.byte_size.is_at_most(MAX_COLUMN_BYTES)
    }

    /// Whether the column is lawful and its counts are inside the limits.
    pub fn is_sound(&self) -> bool
        ensures { result ≡ sound K.relation self.now }
    {
        self.is_lawful() && self.is_within_limits()
    }

    /// Trims to a table's rows: nulls are at most the rows, and distinct values
    /// at most the rows that are not null. Absent rows trim nothing.
    pub fn trim(self, rows: Precision<u64>) -> ColumnStatistics<K>
        ensures value { result ≡ trimmed rows self }
        ensures trims { Trims K.relation rows self result }
    {
        let Some(n) = rows.get_value() else {
            return self;
        };
        let null_count = self.null_count.capped_at(n);
        let not_null = n.saturating_sub(null_count.or_zero());
        ColumnStatistics {
            null_count,
            distinct_count: self.distinct_count.capped_at(not_null),
            ..self
        }
    }
}

/// Whether every column is sound.
pub fn all_sound<K: Key>(columns: &[ColumnStatistics<K>]) -> bool
    ensures { result ≡ list_all (sound K.relation) columns.now }
{
    columns.iter().all(|column| column.is_sound())
}
