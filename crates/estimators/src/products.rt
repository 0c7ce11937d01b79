//! Rows of a join by the product of all its keys' distinct values.
ghost use Rattle.std.specs.Prelude.{◌≡◌};
ghost use Rattle.questions.specs.Questions.{asked};
ghost use Rattle.estimators.specs.KeyColumns.{keys_from};
ghost use Rattle.estimators.specs.Product.{larger_distinct, divisor, joined_by, product_by, Positive};

use crate::answerable::TableRows;
use crate::pairs::Side;
use keys::Key;
use questions::{Figure, JoinType};
use stats::stopping_product;

/// The larger of two distinct counts, if both are known and above 0.
fn larger_of(left: Option<u64>, right: Option<u64>) -> Option<u64>
    ensures { result ≡ larger_distinct left right }
{
    match (left?, right?) {
        (0, _) | (_, 0) => None,
        (l, r) => Some(l.max(r)),
    }
}

impl<'q, K: Key> Side<'q, K> {
    /// What the pairs of rows are divided by; none if a key pair lacks a count.
    pub(crate) fn divisor(&self) -> Option<u64>
        ensures { result ≡ divisor (keys_from self.now.side (asked self.now.question.now)) }
    {
        self.question
            .on
            .iter()
            .map(|pair| self.columns_of(*pair))
            .fold(Some(1), |so_far, columns| {
                let count = larger_of(
                    columns.this.distinct_count.get_value(),
                    columns.other.distinct_count.get_value(),
                );
                stopping_product(so_far, count)
            })
    }
}

impl TableRows {
    /// The rows of the inner join.
    pub(crate) fn joined_by(self, divisor: Option<u64>) -> u64
        requires { Positive divisor }
        ensures { result ≡ joined_by self.left self.right divisor }
    {
        self.pairs() / divisor.unwrap_or(1)
    }

    /// The rows of a join of a type, from those of the inner join.
    pub(crate) fn figure_by_type(self, join_type: JoinType, joined: u64) -> Option<Figure>
        ensures { result ≡ product_by join_type self.left self.right joined }
    {
        let rows = match join_type {
            JoinType::Inner => joined,
            JoinType::Left => joined.max(self.left),
            JoinType::Right => joined.max(self.right),
            JoinType::Full => joined.max((self.left + self.right).saturating_sub(joined)),
            JoinType::LeftSemi => joined.min(self.left),
            JoinType::RightSemi => joined.min(self.right),
            JoinType::LeftAnti => self.left - joined.min(self.left),
            JoinType::RightAnti => self.right - joined.min(self.right),
            JoinType::LeftMark | JoinType::RightMark => return None,
        };
        Some(Figure::Inexact(rows))
    }
}
