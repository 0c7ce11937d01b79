//! Counts in IEEE 754 binary64.
#![tactic(auto)]

ghost use Rattle.std.specs.Prelude.{◌≡◌};
ghost use Rattle.floats.specs.Counts.{rescaled, Rescaled};

use std::num::{nearest_u64_to_f64, saturating_f64_to_u64};

/// `bytes` times `new_rows` over `old_rows`, each operation rounded once, and
/// then to the nearest whole number, halves away from zero.
pub fn rescale(bytes: u64, old_rows: u64, new_rows: u64) -> u64
    ensures value { result ≡ rescaled bytes old_rows new_rows }
    ensures laws { Rescaled bytes old_rows new_rows result }
{
    let (b, o, n) = (
        nearest_u64_to_f64(bytes),
        nearest_u64_to_f64(old_rows),
        nearest_u64_to_f64(new_rows),
    );
    saturating_f64_to_u64((b * n / o).round())
}
