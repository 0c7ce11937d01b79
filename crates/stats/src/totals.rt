//! Several counts taken together.
ghost use Rattle.std.specs.Prelude.{◌≡◌};
ghost use Rattle.stats.specs.Totals.{total_of};

use crate::exactness::Precision;

/// All counts added up: 0 for none, Absent where one of them is.
pub fn total_of(counts: &[Precision<u64>]) -> Precision<u64>
    ensures { result ≡ total_of counts.now }
{
    counts
        .iter()
        .fold(Precision::Exact(0), |sum, count| sum.add(*count))
}
