//! The two kinds: whole numbers, and numbers mixed with texts.
ghost use Rattle.keys.specs.Kinds.{whole_relation, whole_size, mixed_relation, mixed_size};
ghost use Rattle.keys.specs.KindLaws.{whole, mixed};

use crate::numbers::count_numbers;
use crate::{Key, Relation, ShortText};

/// A signed number of 64 bits; ranges are counted.
#[derive(Clone, Copy, PartialEq, Eq, PartialOrd, Ord, Debug)]
pub struct Whole(pub i64);

impl Key for Whole {
    ghost relation = { whole_relation };

    ghost size = { whole_size };

    ghost lawful = { whole };

    fn compare(self, other: Whole) -> Relation {
        Relation::from(self.cmp(&other))
    }

    fn range_size(low: Whole, high: Whole) -> Option<u64> {
        count_numbers(low.0, high.0)
    }
}

/// One of two families: a signed number of 64 bits, counted, or a short text,
/// not counted.
#[derive(Clone, Copy, PartialEq, Eq, Debug)]
pub enum Mixed {
    Number(i64),
    Text(ShortText),
}

impl Key for Mixed {
    ghost relation = { mixed_relation };

    ghost size = { mixed_size };

    ghost lawful = { mixed };

    fn compare(self, other: Mixed) -> Relation {
        match (self, other) {
            (Mixed::Number(a), Mixed::Number(b)) => Relation::from(a.cmp(&b)),
            (Mixed::Text(a), Mixed::Text(b)) => Relation::from(a.cmp(&b)),
            _ => Relation::Unrelated,
        }
    }

    fn range_size(low: Mixed, high: Mixed) -> Option<u64> {
        match (low, high) {
            (Mixed::Number(a), Mixed::Number(b)) => count_numbers(a, b),
            _ => None,
        }
    }
}
