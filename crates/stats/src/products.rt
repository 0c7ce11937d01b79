//! Counts multiplied.
ghost use Rattle.std.specs.Prelude.{◌≡◌};
ghost use Rattle.stats.specs.Products.{stopping_product};

/// The product, which stops at the greatest number; none if one is missing.
pub fn stopping_product(so_far: Option<u64>, count: Option<u64>) -> Option<u64>
    ensures { result ≡ stopping_product so_far count }
{
    Some(so_far?.saturating_mul(count?))
}
