//! Estimators of the rows of a join: by the widest key, by the product of all
//! keys, and chains of estimators.
#![tactic(auto)]

ghost use Rattle.std.specs.Prelude.{◌≡◌, max};
ghost use Rattle.std.specs.Option.{option_or};
ghost use Rattle.questions.specs.Figures.{figure_of};
ghost use Rattle.questions.specs.Questions.{asked, this_input};
ghost use Rattle.stats.specs.Precisions.{known, both};
ghost use Rattle.questions.specs.declared.types.JoinSide.TheVariants.{Left};
ghost use Rattle.estimators.specs.KeyColumns.{keys_from};
ghost use Rattle.estimators.specs.WidestFigures.{full_figure, semi_figure, anti_figure, widest_by, widest_figure};
ghost use Rattle.estimators.specs.Product.{divisor, product_of, product_figure};
ghost use Rattle.estimators.specs.Bounds.{Bounds, Symmetric};
ghost use Rattle.estimators.specs.WidestLaws.{widest_shares, widest_mirrors};
ghost use Rattle.estimators.specs.ProductLaws.{product_shares, product_mirrors};
ghost use Rattle.std.proofs.Common.{rules};

use answerable::Answerable;
use keys::Key;
use pairs::Side;
use questions::{Estimator, Figure, JoinQuestion, JoinSide, JoinType};
use stats::Precision;

mod answerable;
mod disjoint;
mod inner;
mod pairs;
mod products;
mod semi;
mod zeros;

pub use answerable::is_answerable;

impl<'q, K: Key> Answerable<'q, K> {
    /// Rows of a full join: those of both outer joins, the matches counted once.
    fn full_join_figure(&self) -> Option<Figure>
        ensures { result ≡ full_figure K.relation K.size (asked self.now.question.now) }
    {
        let inner = self.estimate_inner_join_cardinality();
        let left = inner.max(self.question.left.num_rows);
        let right = inner.max(self.question.right.num_rows);
        Figure::from_precision(left.add(right).sub(inner))
    }

    /// The figure by the widest key, if the join's type has one.
    fn widest_figure(&self) -> Option<Figure>
        ensures { let q = asked self.now.question.now in result ≡ widest_by K.relation K.size q q.join_type }
    {
        let question = self.question;
        let left = Side {
            question,
            side: JoinSide::Left,
        };
        let right = Side {
            question,
            side: JoinSide::Right,
        };
        match question.join_type {
            JoinType::Inner => Figure::from_precision(self.estimate_inner_join_cardinality()),
            JoinType::Full => self.full_join_figure(),
            JoinType::Left => left.outer_figure(self.estimate_inner_join_cardinality()),
            JoinType::Right => right.outer_figure(self.estimate_inner_join_cardinality()),
            JoinType::LeftSemi => left.kept_figure(),
            JoinType::RightSemi => right.kept_figure(),
            JoinType::LeftAnti => left.rest_figure(),
            JoinType::RightAnti => right.rest_figure(),
            JoinType::LeftMark | JoinType::RightMark => None,
        }
    }

    /// The figure by the product of all keys, if both tables' rows are known.
    fn product_figure(&self) -> Option<Figure>
        ensures { let q = asked self.now.question.now in result ≡ product_of q.join_type (known q.left.rows) (known q.right.rows) (divisor (keys_from Left q)) }
    {
        let rows = self.table_rows()?;
        let left = Side {
            question: self.question,
            side: JoinSide::Left,
        };
        let joined = rows.joined_by(left.divisor());
        rows.figure_by_type(self.question.join_type, joined)
    }
}

impl<'q, K: Key> Side<'q, K> {
    /// Rows of an outer join that keeps this side: at least its rows.
    fn outer_figure(&self, inner: Precision<u64>) -> Option<Figure>
        ensures { result ≡ figure_of (both max inner (this_input self.now.side (asked self.now.question.now)).rows) }
    {
        Figure::from_precision(inner.max(self.rows()))
    }

    /// The rows of this side that have a match.
    fn kept_figure(&self) -> Option<Figure>
        ensures { result ≡ semi_figure K.relation K.size (asked self.now.question.now) self.now.side }
    {
        self.estimate_semi_join_cardinality().map(Figure::Inexact)
    }

    /// The rows of this side that have none.
    fn rest_figure(&self) -> Option<Figure>
        ensures { result ≡ anti_figure K.relation K.size (asked self.now.question.now) self.now.side }
    {
        let rows = self.estimate_semi_join_cardinality()?;
        let all = self.rows();
        Some(Figure::Inexact(all.or_zero().saturating_sub(rows)))
    }
}

/// What every figure of the two estimators keeps: the contract is the law.
pub fn figures_stay_in_bounds<K: Key>()
    ensures widest { Bounds (widest_figure K.Key.relation K.Key.size) }
    ensures product { Bounds (product_figure K.Key.relation) }
    ensures disjoint { Symmetric K.Key.relation }
{}

/// Estimates by the widest key: the one that can have the most distinct values.
#[derive(Clone, Copy)]
pub struct Widest;

impl<K: Key> Estimator<K> for Widest {
    ghost figure = { λ _ q. widest_figure K.Key.relation K.Key.size q };

    ghost shares = { λ e. widest_shares K.Key.relation K.Key.size };

    ghost mirrors = { λ e. widest_mirrors K.Key.lawful };

    fn estimate(&self, question: &JoinQuestion<'_, '_, '_, K>) -> Option<Figure> {
        let checked = Answerable::new(question)?;
        checked.widest_figure()
    }
}

/// Estimates by the product of all keys' distinct values.
#[derive(Clone, Copy)]
pub struct Product;

impl<K: Key> Estimator<K> for Product {
    ghost figure = { λ _ q. product_figure K.Key.relation q };

    ghost shares = { λ e. product_shares K.Key.relation };

    ghost mirrors = { λ e. product_mirrors K.Key.relation };

    fn estimate(&self, question: &JoinQuestion<'_, '_, '_, K>) -> Option<Figure> {
        let checked = Answerable::new(question)?;
        checked.product_figure()
    }
}

/// The first's figure, or, where it has none, the second's.
#[derive(Clone, Copy)]
pub struct Chain<A, B> {
    pub first: A,
    pub second: B,
}

impl<K: Key, A: Estimator<K>, B: Estimator<K>> Estimator<K> for Chain<A, B> {
    ghost figure = { λ c q. option_or (A.Estimator.figure c.first q) (B.Estimator.figure c.second q) };

    ghost shares = { Prim.search rules };

    ghost mirrors = { Prim.search rules };

    fn estimate(&self, question: &JoinQuestion<'_, '_, '_, K>) -> Option<Figure> {
        // Not by or_else: the proof didn't close, since it learns no result of an FnOnce over a borrow.
        match self.first.estimate(question) {
            Some(figure) => Some(figure),
            None => self.second.estimate(question),
        }
    }
}

#[cfg(test)]
mod tests;
