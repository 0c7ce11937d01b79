//! How many signed numbers of 64 bits a range has.
ghost use Rattle.std.specs.Prelude.{◌≡◌};
ghost use Rattle.keys.specs.Numbers.{number_size};

/// Both ends count. The whole span has one value more than a `u64` can say.
pub(crate) fn count_numbers(low: i64, high: i64) -> Option<u64>
    ensures { result ≡ number_size low high }
{
    if high < low {
        return None;
    }
    high.abs_diff(low).checked_add(1)
}
