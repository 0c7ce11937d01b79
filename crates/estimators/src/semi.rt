//! Rows of a semi join: those of one side that have a match on the other.
ghost use Rattle.std.specs.Prelude.{◌≡◌};
ghost use Rattle.questions.specs.Questions.{asked, this_input, other_input};
ghost use Rattle.estimators.specs.KeyColumns.{keys_from};
ghost use Rattle.estimators.specs.Semi.{has_statistics, null_part, factor_by, pair_factor, selectivity, times, semi_rows};

use crate::pairs::{KeyColumns, Side};
use keys::Key;
use questions::NullEquality;
use stats::{ColumnStatistics, Precision, max_distinct_count};
use std::num::{nearest_u64_to_f64, saturating_f64_to_u64};

/// Whether distinct values, or both ends, are known.
fn has_statistics_of<K: Key>(column: &ColumnStatistics<K>) -> bool
    ensures { result ≡ has_statistics column.now }
{
    column.distinct_count.get_value().is_some()
        || (column.min_value.get_value().is_some() && column.max_value.get_value().is_some())
}

/// The part of the rows whose key is null and so matches nothing.
fn null_fraction(rule: NullEquality, nulls: Precision<u64>, rows: u64) -> f64
    ensures { result ≡ null_part rule nulls rows }
{
    match (rule, nulls.get_value()) {
        (NullEquality::NullEqualsNothing, Some(count)) if count <= rows => {
            nearest_u64_to_f64(count) / nearest_u64_to_f64(rows)
        }
        _ => 0.0,
    }
}

/// The part of the rows that a key pair lets through, from the part that is null
/// and the distinct values of either side's key.
fn factor_by(nulls: f64, distinct: Option<u64>, other_distinct: Option<u64>) -> Option<f64>
    ensures { result ≡ factor_by nulls distinct other_distinct }
{
    let (d, e) = (distinct?, other_distinct?);
    if d == 0 {
        return None;
    }
    let matched = nearest_u64_to_f64(d.min(e)) / nearest_u64_to_f64(d);
    Some(matched * (1.0 - nulls))
}

/// What is let through so far, times one more factor.
fn product_of(so_far: Option<f64>, factor: Option<f64>) -> Option<f64>
    ensures { result ≡ times so_far factor }
{
    factor.map_or(so_far, |f| Some(so_far.unwrap_or(1.0) * f))
}

impl<'q, K: Key> Side<'q, K> {
    /// The part of `rows` known rows that a key pair lets through; none where too
    /// little is known of its columns.
    fn factor_of(&self, rows: u64, columns: &KeyColumns<K>) -> Option<f64>
        ensures { let q = asked self.now.question.now in let s = self.now.side in result ≡ pair_factor K.size q.null_rule rows (this_input s q).rows (other_input s q).rows columns.now }
    {
        if !(has_statistics_of(&columns.this) && has_statistics_of(&columns.other)) {
            return None;
        }
        let nulls = null_fraction(self.question.null_equality, columns.this.null_count, rows);
        let distinct = max_distinct_count(self.rows(), &columns.this);
        let other_distinct = max_distinct_count(self.other_rows(), &columns.other);
        factor_by(nulls, distinct.get_value(), other_distinct.get_value())
    }

    /// The part of `rows` known rows that all key pairs let through.
    fn selectivity(&self, rows: u64) -> Option<f64>
        ensures { let q = asked self.now.question.now in let s = self.now.side in result ≡ selectivity K.size q.null_rule rows (this_input s q).rows (other_input s q).rows (keys_from s q) }
    {
        self.question
            .on
            .iter()
            .map(|pair| self.columns_of(*pair))
            .fold(None, |so_far, columns| {
                product_of(so_far, self.factor_of(rows, &columns))
            })
    }

    /// The rows of this side that have a match, if there is an estimate.
    pub(crate) fn estimate_semi_join_cardinality(&self) -> Option<u64>
        ensures { result ≡ semi_rows K.relation K.size self.now.side (asked self.now.question.now) }
    {
        let rows = self.rows().get_value()?;
        if self.estimate_disjoint_inputs().get_value().is_some() || rows == 0 {
            return Some(0);
        }
        if self.other_rows().get_value()? == 0 {
            return Some(0);
        }
        let part = self.selectivity(rows)?;
        Some(saturating_f64_to_u64((nearest_u64_to_f64(rows) * part).ceil()))
    }
}
