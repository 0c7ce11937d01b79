//! Key pairs without a value in common.
ghost use Rattle.std.specs.Prelude.{◌≡◌};
ghost use Rattle.questions.specs.Questions.{asked};
ghost use Rattle.estimators.specs.KeyColumns.{keys_from};
ghost use Rattle.estimators.specs.Disjoint.{low_past_high, ranges_apart, no_null_match, disjoint_pair, disjoint};

use crate::pairs::{KeyColumns, Side};
use crate::zeros::{known_zero, surer_zero};
use keys::{Key, Relation};
use questions::NullEquality;
use stats::{ColumnStatistics, Precision};

/// 0 where the low of one column is after the high of the other.
fn zero_if_low_past_high<K: Key>(
    column: &ColumnStatistics<K>,
    other: &ColumnStatistics<K>,
) -> Precision<u64>
    ensures { result ≡ low_past_high K.relation column.now other.now }
{
    let ends = column.min_value.zip(other.max_value);
    // Not by then_some: the proof did not close.
    ends.filter_map(|(low, high)| match low.compare(high) {
        Relation::After => Some(0),
        _ => None,
    })
}

/// 0 where the ranges of the two columns have no value in common.
fn zero_if_ranges_apart<K: Key>(columns: &KeyColumns<K>) -> Precision<u64>
    ensures { result ≡ ranges_apart K.relation columns.now }
{
    let after = zero_if_low_past_high(&columns.this, &columns.other);
    after.or_else(|| zero_if_low_past_high(&columns.other, &columns.this))
}

/// 0 where no null of the two columns matches another.
fn zero_if_no_null_matches<K: Key>(rule: NullEquality, columns: &KeyColumns<K>) -> Precision<u64>
    ensures { result ≡ no_null_match rule columns.now }
{
    match rule {
        NullEquality::NullEqualsNothing => Precision::Exact(0),
        NullEquality::NullEqualsNull => surer_zero(
            known_zero(columns.this.null_count),
            known_zero(columns.other.null_count),
        ),
    }
}

/// 0 where a pair is disjoint, Exact if what shows it is.
fn zero_if_disjoint<K: Key>(rule: NullEquality, columns: &KeyColumns<K>) -> Precision<u64>
    ensures { result ≡ disjoint_pair K.relation rule columns.now }
{
    let unmatched = zero_if_no_null_matches(rule, columns);
    zero_if_ranges_apart(columns).zip(unmatched).map(|_| 0)
}

impl<'q, K: Key> Side<'q, K> {
    /// 0 of the first key pair that is disjoint; Absent if none is.
    pub(crate) fn estimate_disjoint_inputs(&self) -> Precision<u64>
        ensures { let q = asked self.now.question.now in result ≡ disjoint K.relation q.null_rule (keys_from self.now.side q) }
    {
        let rule = self.question.null_equality;
        self.question
            .on
            .iter()
            .map(|pair| self.columns_of(*pair))
            .map(|columns| zero_if_disjoint(rule, &columns))
            .find(|apart| apart.get_value().is_some())
            .unwrap_or(Precision::Absent)
    }
}
