//! What an estimator answers.
ghost use Rattle.std.specs.Prelude.{◌≡◌};
ghost use Rattle.questions.specs.Figures.{figure_of, rows_of, amount};

use stats::Precision;

/// A number of rows, exact or an estimate.
// No `Precision<u64>`: that may be Absent, and who has no figure answers None.
#[derive(Clone, Copy, PartialEq, Eq, Debug)]
pub enum Figure {
    Exact(u64),
    Inexact(u64),
}

impl Figure {
    /// The figure that a Precision is, and none for Absent.
    // No TryFrom: that rows are not known is no error.
    pub fn from_precision(rows: Precision<u64>) -> Option<Figure>
        ensures { result ≡ figure_of rows }
    {
        match rows {
            Precision::Exact(count) => Some(Figure::Exact(count)),
            Precision::Inexact(count) => Some(Figure::Inexact(count)),
            Precision::Absent => None,
        }
    }

    /// The number, exactness aside.
    pub fn amount(self) -> u64
        ensures { result ≡ amount self }
    {
        match self {
            Figure::Exact(count) | Figure::Inexact(count) => count,
        }
    }
}

/// The figure as rows.
impl From<Figure> for Precision<u64> {
    ghost from_gives = { λ figure rows. rows ≡ rows_of figure };

    fn from(figure: Figure) -> Precision<u64> {
        match figure {
            Figure::Exact(count) => Precision::Exact(count),
            Figure::Inexact(count) => Precision::Inexact(count),
        }
    }
}
