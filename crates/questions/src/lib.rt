//! Questions about the rows of a join, and the interface of those who answer
//! them.
#![tactic(auto)]

ghost use Rattle.std.specs.Prelude.{◌≡◌, Option};
ghost use Rattle.questions.specs.declared.figures.Figure.{Figure};
ghost use Rattle.questions.specs.Questions.{Question, asked, this_input};
ghost use Rattle.questions.specs.Laws.{Shares, Mirrors};
ghost use Rattle.questions.specs.Kept.{kept_part};

use keys::Key;
use stats::{ColumnStatistics, Precision};

mod figures;
mod types;

pub use figures::Figure;
pub use types::{JoinSide, JoinType, KeyPair, KeySide, MAX_PAIRS, NullEquality, are_pairs_inside};

/// A table that is joined: its rows and columns.
#[derive(Clone, Copy)]
pub struct JoinInput<'a, K> {
    pub num_rows: Precision<u64>,
    pub columns: &'a [ColumnStatistics<K>],
}

/// How many rows has this join?
#[derive(Clone, Copy)]
pub struct JoinQuestion<'p, 'l, 'r, K> {
    pub join_type: JoinType,
    pub null_equality: NullEquality,
    pub on: &'p [KeyPair],
    pub left: JoinInput<'l, K>,
    pub right: JoinInput<'r, K>,
}

impl<'p, 'l, 'r, K: Key> JoinQuestion<'p, 'l, 'r, K> {
    /// The rows of the table on a side.
    pub fn rows_on(&self, side: JoinSide) -> Precision<u64>
        ensures { result ≡ (this_input side (asked self.now)).rows }
    {
        match side {
            JoinSide::Left => self.left.num_rows,
            JoinSide::Right => self.right.num_rows,
        }
    }
}

/// Who answers questions, with a figure or with none. An estimator is a
/// function from questions to answers that keeps two laws: the answers to a semi
/// and to an anti join add up, and a mirrored question has the same answer.
pub trait Estimator<K: Key> {
    ghost figure: { Self → Question K → Option Figure };

    fn estimate(&self, question: &JoinQuestion<'_, '_, '_, K>) -> Option<Figure>
        ensures { result ≡ figure self.now (asked question.now) };

    ghost shares: { (e : Self) → Shares (figure e) };

    ghost mirrors: { (e : Self) → Mirrors (figure e) };
}

/// The columns of the child whose rows a join keeps: the left block, the right
/// block, or, for the types that keep both children's columns, the empty front
/// of the left block.
pub fn kept_columns<'a, K>(
    join_type: JoinType,
    left: &'a [ColumnStatistics<K>],
    right: &'a [ColumnStatistics<K>],
) -> &'a [ColumnStatistics<K>]
    ensures { result.now ≡ kept_part join_type left.now right.now }
{
    match join_type {
        JoinType::Inner | JoinType::Full | JoinType::Left | JoinType::Right => &left[0..0],
        JoinType::LeftSemi | JoinType::LeftAnti | JoinType::LeftMark => left,
        JoinType::RightSemi | JoinType::RightAnti | JoinType::RightMark => right,
    }
}
