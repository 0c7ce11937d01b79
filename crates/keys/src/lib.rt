//! Key kinds: the values that a column's ends are, how two of them stand to
//! each other, and how many lie in a range.
#![tactic(auto)]

ghost use Rattle.std.specs.Prelude.{◌≡◌, ℕ, Option};
ghost use Rattle.keys.specs.declared.Relation.{Relation};
ghost use Rattle.keys.specs.Relations.{relation_of};
ghost use Rattle.keys.specs.Laws.{Lawful};

use std::cmp::Ordering;

mod kinds;
mod numbers;
mod texts;

pub use kinds::{Mixed, Whole};
pub use texts::ShortText;

/// How a value stands to another.
// No `Option<Ordering>`, though `partial_cmp` says None of other families: the
// laws of a kind are stated over these four, and a derive would order families.
#[derive(Clone, Copy, PartialEq, Eq, Debug)]
pub enum Relation {
    Before,
    Equal,
    After,
    /// The two are of different families.
    Unrelated,
}

/// The order of two values of one family.
impl From<Ordering> for Relation {
    ghost from_gives = { λ order relation. relation ≡ relation_of order };

    fn from(order: Ordering) -> Relation {
        match order {
            Ordering::Less => Relation::Before,
            Ordering::Equal => Relation::Equal,
            Ordering::Greater => Relation::After,
        }
    }
}

/// A key kind; `Self` is one of its values.
///
/// `relation x y` says how `x` stands to `y`, and `size low high` how many of
/// the kind's values lie in `low..=high`, if that is counted.
pub trait Key: Copy {
    ghost relation: { Self → Self → Relation };

    ghost size: { Self → Self → Option ℕ };

    fn compare(self, other: Self) -> Relation
        ensures { result ≡ relation self other };

    fn range_size(low: Self, high: Self) -> Option<u64>
        ensures { result ≡ size low high };

    ghost lawful: { Lawful relation size };
}

#[cfg(test)]
mod tests;
