//! How many distinct values a column can have.
ghost use Rattle.std.specs.Prelude.{◌≡◌};
ghost use Rattle.stats.specs.Distincts.{not_null, values_in_range, tighter, max_distinct, Distincts};

use crate::{ColumnStatistics, Precision};
use keys::Key;

/// The rows that are not null, as far as is known.
fn not_null_count(num_rows: Precision<u64>, null_count: Precision<u64>) -> Precision<u64>
    ensures { result ≡ not_null num_rows null_count }
{
    num_rows.sub(null_count.or_else(|| Precision::Inexact(0)))
}

/// How many values lie between a column's ends, if that is known.
fn range_count<K: Key>(stats: &ColumnStatistics<K>) -> Precision<u64>
    ensures { result ≡ values_in_range K.size stats.now }
{
    stats
        .min_value
        .zip(stats.max_value)
        .filter_map(|(low, high)| K::range_size(low, high))
}

/// The range's count, where it is present and says more.
fn tighter_of(count: Precision<u64>, range: Precision<u64>) -> Precision<u64>
    ensures { result ≡ tighter count range }
{
    match (count.get_value(), range.get_value()) {
        (_, None) => count,
        (Some(counted), Some(most)) if counted <= most => count,
        _ => range,
    }
}

/// The most distinct values that the column can have in `num_rows` rows: its
/// own count, which cannot exceed the rows, or else the rows that are not null,
/// or how many values its range has.
pub fn max_distinct_count<K: Key>(
    num_rows: Precision<u64>,
    stats: &ColumnStatistics<K>,
) -> Precision<u64>
    ensures value { result ≡ max_distinct K.size num_rows stats.now }
    ensures laws { Distincts K.size num_rows stats.now result }
{
    match (stats.distinct_count, num_rows.get_value()) {
        (Precision::Absent, _) => tighter_of(
            not_null_count(num_rows, stats.null_count),
            range_count(stats),
        ),
        (count, None) => count,
        (count, Some(rows)) => count.capped_at(rows),
    }
}
