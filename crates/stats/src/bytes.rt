//! Bytes of a table whose rows have changed.
ghost use Rattle.std.specs.Prelude.{◌≡◌};
ghost use Rattle.stats.specs.Bytes.{rescaled_bytes, Rescales};

use crate::Precision;
use floats::rescale;

/// Keeps the average bytes of a row while the rows change. Where the old rows
/// are 0, or something is Absent, the bytes stay as they are.
#[tactic(auto, using(crate::proofs::Rescales::rescales))]
pub fn rescale_byte_size(
    bytes: Precision<u64>,
    old_rows: Precision<u64>,
    new_rows: Precision<u64>,
) -> Precision<u64>
    ensures value { result ≡ rescaled_bytes bytes old_rows new_rows }
    ensures laws { Rescales bytes old_rows new_rows result }
{
    match bytes.zip(old_rows.zip(new_rows)) {
        Precision::Exact((b, (o, n))) if o > 0 && n == o => Precision::Exact(rescale(b, o, n)),
        Precision::Exact((b, (o, n))) | Precision::Inexact((b, (o, n))) if o > 0 => {
            Precision::Inexact(rescale(b, o, n))
        }
        _ => bytes,
    }
}
