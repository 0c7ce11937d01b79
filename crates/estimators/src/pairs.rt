//! The columns that key pairs name.
ghost use Rattle.std.specs.Prelude.{◌≡◌, slice_index_or};
ghost use Rattle.questions.specs.Questions.{asked, this_input, other_input};
ghost use Rattle.stats.specs.Columns.{unknown_column};
ghost use Rattle.estimators.specs.KeyColumns.{columns_from};

use keys::Key;
use questions::{JoinQuestion, JoinSide, KeyPair, KeySide};
use stats::{ColumnStatistics, Precision};

/// The two columns of a key pair, seen from one side: its own, and the other's.
#[derive(Clone, Copy)]
pub struct KeyColumns<K> {
    pub this: ColumnStatistics<K>,
    pub other: ColumnStatistics<K>,
}

/// A column, or an unknown one where the table has none of that index.
fn column_at<K: Key>(columns: &[ColumnStatistics<K>], index: usize) -> ColumnStatistics<K>
    ensures { result ≡ slice_index_or columns.now index unknown_column }
{
    columns
        .get(index)
        .copied()
        .unwrap_or(ColumnStatistics::unknown())
}

/// A question, seen from one side of its join.
// Made by a literal: through a method, the search did not rewrite the side in
// the cases, and goals of its callers stayed open.
#[derive(Drop)]
pub(crate) struct Side<'q, K> {
    pub(crate) question: &'q JoinQuestion<'q, 'q, 'q, K>,
    pub(crate) side: JoinSide,
}

impl<'q, K: Key> Side<'q, K> {
    /// The rows of this side's table.
    pub(crate) fn rows(&self) -> Precision<u64>
        ensures { result ≡ (this_input self.now.side (asked self.now.question.now)).rows }
    {
        self.question.rows_on(self.side)
    }

    /// The rows of the other side's table.
    pub(crate) fn other_rows(&self) -> Precision<u64>
        ensures { result ≡ (other_input self.now.side (asked self.now.question.now)).rows }
    {
        self.question.rows_on(self.side.opposite())
    }

    /// The columns of a pair; both are unknown if one key is an expression.
    // Callers map the pairs themselves: Rattle has no `impl Iterator` as a result.
    pub(crate) fn columns_of(&self, pair: KeyPair) -> KeyColumns<K>
        ensures { result ≡ columns_from self.now.side (asked self.now.question.now) pair }
    {
        let question = self.question;
        let (left, right) = match (pair.left, pair.right) {
            (KeySide::Column(l), KeySide::Column(r)) => (
                column_at(question.left.columns, l),
                column_at(question.right.columns, r),
            ),
            _ => (ColumnStatistics::unknown(), ColumnStatistics::unknown()),
        };
        match self.side {
            JoinSide::Left => KeyColumns {
                this: left,
                other: right,
            },
            JoinSide::Right => KeyColumns {
                this: right,
                other: left,
            },
        }
    }
}
