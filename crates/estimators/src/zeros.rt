//! Counts that are known to be 0.
ghost use Rattle.std.specs.Prelude.{◌≡◌};
ghost use Rattle.estimators.specs.Zeros.{zero_of, either_zero};

use stats::Precision;

/// 0 with its exactness, where a count is known to be 0.
pub(crate) fn known_zero(count: Precision<u64>) -> Precision<u64>
    ensures { result ≡ zero_of count }
{
    // Not by then_some: the proof did not close.
    count.filter_map(|count| if count == 0 { Some(0) } else { None })
}

/// The surer of two zeros.
pub(crate) fn surer_zero(a: Precision<u64>, b: Precision<u64>) -> Precision<u64>
    ensures { result ≡ either_zero a b }
{
    match (a, b) {
        (Precision::Exact(_), _) | (_, Precision::Exact(_)) => Precision::Exact(0),
        (Precision::Inexact(_), _) | (_, Precision::Inexact(_)) => Precision::Inexact(0),
        (Precision::Absent, Precision::Absent) => Precision::Absent,
    }
}
