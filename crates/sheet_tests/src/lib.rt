//! The calls of a sheet by example, over memory of many kinds.
#![tactic(auto)]

ghost use Rattle.std.specs.Prelude.{◌≡◌};
ghost use Rattle.stats.specs.declared.exactness.Precision.TheVariants.{Absent};

use keys::Whole;
use stats::{ColumnStatistics, Precision};

/// A column without ends.
pub(crate) fn counts(
    nulls: Precision<u64>,
    distincts: Precision<u64>,
    bytes: Precision<u64>,
) -> ColumnStatistics<Whole>
    ensures { result ≡ record { null_count = nulls; distinct_count = distincts; byte_size = bytes; min_value = Absent; max_value = Absent } }
{
    ColumnStatistics {
        null_count: nulls,
        distinct_count: distincts,
        byte_size: bytes,
        ..ColumnStatistics::unknown()
    }
}

/// A column that has these ends besides.
pub(crate) fn with_ends(
    column: ColumnStatistics<Whole>,
    low: Precision<Whole>,
    high: Precision<Whole>,
) -> ColumnStatistics<Whole>
    ensures { result ≡ record { null_count = column.null_count; distinct_count = column.distinct_count; byte_size = column.byte_size; min_value = low; max_value = high } }
{
    ColumnStatistics {
        min_value: low,
        max_value: high,
        ..column
    }
}

#[cfg(test)]
mod tests;
