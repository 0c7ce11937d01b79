//! Join types, null rules and keys.
ghost use Rattle.std.specs.Prelude.{◌≡◌, Some};
ghost use Rattle.std.specs.Fmt.{padded};
ghost use Rattle.std.specs.List.{list_all};
ghost use Rattle.questions.specs.Names.{join_name};
ghost use Rattle.questions.specs.Types.{type_number, mirror, opposite, exchanged, key_column, key_inside, pair_inside};

use std::fmt;

/// The most key pairs of a join, and keys of a grouping.
pub const MAX_PAIRS: usize = 16;

/// The types of join. The mark joins keep every row of one side and say, in a
/// column more, whether it has a match.
#[derive(Clone, Copy, PartialEq, Eq, Debug)]
pub enum JoinType {
    Inner,
    Full,
    Left,
    Right,
    LeftSemi,
    RightSemi,
    LeftAnti,
    RightAnti,
    LeftMark,
    RightMark,
}

impl JoinType {
    /// The type's number in the rules.
    // No From: `u8::from` would not say which number is meant.
    pub fn number(self) -> u8
        ensures { result ≡ type_number self }
    {
        self as u8
    }

    /// The type that the same join has with its sides exchanged.
    pub fn mirrored(self) -> JoinType
        ensures { result ≡ mirror self }
    {
        match self {
            JoinType::Inner => JoinType::Inner,
            JoinType::Full => JoinType::Full,
            JoinType::Left => JoinType::Right,
            JoinType::Right => JoinType::Left,
            JoinType::LeftSemi => JoinType::RightSemi,
            JoinType::RightSemi => JoinType::LeftSemi,
            JoinType::LeftAnti => JoinType::RightAnti,
            JoinType::RightAnti => JoinType::LeftAnti,
            JoinType::LeftMark => JoinType::RightMark,
            JoinType::RightMark => JoinType::LeftMark,
        }
    }
}

/// A side of a join.
#[derive(Clone, Copy, PartialEq, Eq, Debug)]
pub enum JoinSide {
    Left,
    Right,
}

impl JoinSide {
    pub fn opposite(self) -> JoinSide
        ensures { result ≡ opposite self }
    {
        match self {
            JoinSide::Left => JoinSide::Right,
            JoinSide::Right => JoinSide::Left,
        }
    }
}

/// Whether two null keys match.
#[derive(Clone, Copy, PartialEq, Eq, Debug)]
pub enum NullEquality {
    NullEqualsNothing,
    NullEqualsNull,
}

/// One side of a key pair: a column of that side's table, by its index, or an
/// expression, of which nothing is known.
// No `Option<usize>`: an expression is a key too, not a missing one.
#[derive(Clone, Copy, PartialEq, Eq, Debug)]
pub enum KeySide {
    Column(usize),
    Expression,
}

impl KeySide {
    /// The index of the column, unless the key is an expression.
    pub fn column(self) -> Option<usize>
        ensures { result ≡ key_column self }
    {
        match self {
            KeySide::Column(index) => Some(index),
            KeySide::Expression => None,
        }
    }

    /// Whether the key is a column of a table so wide, or an expression.
    pub fn is_inside(self, width: usize) -> bool
        ensures { result ≡ key_inside width self }
    {
        match self {
            KeySide::Column(index) => index < width,
            KeySide::Expression => true,
        }
    }
}

/// Two keys that a join holds equal.
#[derive(Clone, Copy, PartialEq, Eq, Debug)]
pub struct KeyPair {
    pub left: KeySide,
    pub right: KeySide,
}

impl KeyPair {
    /// Whether both keys are inside tables so wide.
    pub fn is_inside(self, left: usize, right: usize) -> bool
        ensures { result ≡ pair_inside left right self }
    {
        self.left.is_inside(left) && self.right.is_inside(right)
    }

    /// The pair with its sides exchanged.
    pub fn exchanged(self) -> KeyPair
        ensures { result ≡ exchanged self }
    {
        KeyPair {
            left: self.right,
            right: self.left,
        }
    }
}

/// Whether the keys of all pairs are inside tables so wide.
pub fn are_pairs_inside(left: usize, right: usize, on: &[KeyPair]) -> bool
    ensures { result ≡ list_all (pair_inside left right) on.now }
{
    on.iter().all(|pair| pair.is_inside(left, right))
}

/// `inner join` is Inner, `left semi join` LeftSemi.
impl fmt::Display for JoinType {
    ghost output = { λ t. Some (join_name t) };

    ghost styled_output = { λ t spec. Some (padded spec (join_name t)) };

    fn fmt<W: fmt::Write>(&self, f: &mut fmt::Formatter<W>) -> fmt::Result {
        f.pad(match self {
            JoinType::Inner => "inner join",
            JoinType::Full => "full join",
            JoinType::Left => "left join",
            JoinType::Right => "right join",
            JoinType::LeftSemi => "left semi join",
            JoinType::RightSemi => "right semi join",
            JoinType::LeftAnti => "left anti join",
            JoinType::RightAnti => "right anti join",
            JoinType::LeftMark => "left mark join",
            JoinType::RightMark => "right mark join",
        })
    }
}
