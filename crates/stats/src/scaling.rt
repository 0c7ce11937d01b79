//! Counts of a part of a table's rows.
ghost use Rattle.std.specs.Prelude.{◌≡◌};
ghost use Rattle.stats.specs.Scaling.{scaled, Scales};

use crate::Precision;

/// A count of a table with `input_num_rows`, for `output_num_rows` of them.
/// Rounding up keeps a small count from vanishing only because the part is
/// small. Absent where the count does not fit 64 bits.
pub fn scale_subset_count(
    count: Precision<u64>,
    input_num_rows: u64,
    output_num_rows: u64,
) -> Precision<u64>
    ensures value { result ≡ scaled count input_num_rows output_num_rows }
    ensures scales { Scales count input_num_rows output_num_rows result }
{
    count.to_inexact().filter_map(|count| {
        if input_num_rows == 0 {
            return Some(0);
        }
        let product = count as u128 * output_num_rows as u128;
        u64::try_from(product.div_ceil(input_num_rows as u128)).ok()
    })
}
