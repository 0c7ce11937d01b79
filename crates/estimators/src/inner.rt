//! Rows of an inner join by its widest key.
ghost use Rattle.std.specs.Prelude.{◌≡◌};
ghost use Rattle.questions.specs.Questions.{asked, this_input, other_input};
ghost use Rattle.questions.specs.declared.types.JoinSide.TheVariants.{Left};
ghost use Rattle.estimators.specs.KeyColumns.{keys_from};
ghost use Rattle.estimators.specs.Zeros.{zero_of, either_zero, or_else};
ghost use Rattle.estimators.specs.Widest.{max_present, pair_width, widest, matching, inner_rows};

use crate::answerable::Answerable;
use crate::pairs::{KeyColumns, Side};
use crate::zeros::{known_zero, surer_zero};
use keys::Key;
use questions::JoinSide;
use stats::{Precision, max_distinct_count};

/// The larger of two counts; an Absent one does not count.
fn max_of_present(a: Precision<u64>, b: Precision<u64>) -> Precision<u64>
    ensures { result ≡ max_present a b }
{
    a.max(b).or_else(|| a).or_else(|| b)
}

impl<'q, K: Key> Side<'q, K> {
    /// The most distinct values of a pair's two columns.
    fn max_of_pair(&self, columns: &KeyColumns<K>) -> Precision<u64>
        ensures { let q = asked self.now.question.now in let s = self.now.side in result ≡ pair_width K.size (this_input s q).rows (other_input s q).rows columns.now }
    {
        let distinct = max_distinct_count(self.rows(), &columns.this);
        distinct.max(max_distinct_count(self.other_rows(), &columns.other))
    }

    /// The most distinct values that a key of the join can have.
    fn widest_key(&self) -> Precision<u64>
        ensures { let q = asked self.now.question.now in let s = self.now.side in result ≡ widest K.size (this_input s q).rows (other_input s q).rows (keys_from s q) }
    {
        self.question
            .on
            .iter()
            .map(|pair| self.columns_of(*pair))
            .fold(Precision::Absent, |most, columns| {
                max_of_present(most, self.max_of_pair(&columns))
            })
    }
}

impl<'q, K: Key> Answerable<'q, K> {
    /// The pairs of rows, divided by the values that a key can have.
    fn matching_rows(&self, values: Precision<u64>) -> Precision<u64>
        ensures { let q = asked self.now.question.now in result ≡ matching q.left.rows q.right.rows values }
    {
        match (self.table_rows(), values.get_value()) {
            (Some(rows), Some(w)) if w > 0 => Precision::Inexact(rows.pairs() / w),
            _ => Precision::Absent,
        }
    }

    /// The rows of the inner join, Absent where there is no estimate.
    pub(crate) fn estimate_inner_join_cardinality(&self) -> Precision<u64>
        ensures { result ≡ inner_rows K.relation K.size (asked self.now.question.now) }
    {
        let left = Side {
            question: self.question,
            side: JoinSide::Left,
        };
        left.estimate_disjoint_inputs().or_else(|| {
            let empty = surer_zero(known_zero(left.rows()), known_zero(left.other_rows()));
            empty.or_else(|| self.matching_rows(left.widest_key()))
        })
    }
}
