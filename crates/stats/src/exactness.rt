//! Values together with what is known of their exactness.
ghost use Rattle.std.specs.Prelude.{◌≡◌, ◌-◌, min, max, is_some, IsTrue};
ghost use Rattle.std.specs.Option.{ForSome};
ghost use Rattle.stats.specs.declared.exactness.Precision.TheVariants.{Absent};
ghost use Rattle.stats.specs.Precisions.{inexact, known, both, paired, Mapped, FilterMapped, total, capped, at_most, or_zero, shown_as};

use std::fmt;

/// A value that is exact, or only an estimate, or not known at all.
#[derive(Clone, Copy, PartialEq, Eq, Debug)]
pub enum Precision<T> {
    Exact(T),
    Inexact(T),
    Absent,
}

impl<T: Copy> Precision<T> {
    /// Exact becomes Inexact; the others stay.
    pub fn to_inexact(self) -> Precision<T>
        ensures { result ≡ inexact self }
    {
        match self {
            Precision::Exact(value) => Precision::Inexact(value),
            other => other,
        }
    }

    /// The value, unless it is Absent.
    pub fn get_value(self) -> Option<T>
        ensures { result ≡ known self }
    {
        match self {
            Precision::Exact(value) | Precision::Inexact(value) => Some(value),
            Precision::Absent => None,
        }
    }

    /// Both values: Absent if either is, Exact if both are, otherwise Inexact.
    pub fn zip<U: Copy>(self, other: Precision<U>) -> Precision<(T, U)>
        ensures { result ≡ paired self other }
    {
        match (self, other) {
            (Precision::Absent, _) | (_, Precision::Absent) => Precision::Absent,
            (Precision::Exact(a), Precision::Exact(b)) => Precision::Exact((a, b)),
            (
                Precision::Exact(a) | Precision::Inexact(a),
                Precision::Exact(b) | Precision::Inexact(b),
            ) => Precision::Inexact((a, b)),
        }
    }

    /// What `f` makes of the value, as exact as that is.
    pub fn map<U: Copy, F: FnOnce(T) -> U>(self, f: F) -> Precision<U>
        requires { ForSome (known self) (F.pre f) }
        ensures { Mapped (F.post f) self result }
    {
        match self {
            Precision::Exact(value) => Precision::Exact(f(value)),
            Precision::Inexact(value) => Precision::Inexact(f(value)),
            Precision::Absent => Precision::Absent,
        }
    }

    /// As `map`; Absent where `f` makes nothing of the value.
    pub fn filter_map<U: Copy, F: FnOnce(T) -> Option<U>>(self, f: F) -> Precision<U>
        requires { ForSome (known self) (F.pre f) }
        ensures { FilterMapped (F.post f) self result }
    {
        match self.map(f) {
            Precision::Exact(Some(value)) => Precision::Exact(value),
            Precision::Inexact(Some(value)) => Precision::Inexact(value),
            _ => Precision::Absent,
        }
    }

    /// The value as it is, or else what `next` gives.
    // Fn, though it runs at most once: under FnOnce a caller's proof stayed open.
    pub fn or_else<F: Fn() -> Precision<T>>(self, next: F) -> Precision<T>
        requires { F.IsAlwaysCallable next }
        ensures present { IsTrue (is_some (known self)) → result ≡ self }
        ensures absent { self ≡ Absent → F.post next result }
    {
        match self {
            Precision::Absent => next(),
            present => present,
        }
    }
}

impl Precision<u64> {
    pub fn max(self, other: Precision<u64>) -> Precision<u64>
        ensures { result ≡ both max self other }
    {
        self.zip(other).map(|(a, b)| a.max(b))
    }

    pub fn min(self, other: Precision<u64>) -> Precision<u64>
        ensures { result ≡ both min self other }
    {
        self.zip(other).map(|(a, b)| a.min(b))
    }

    /// A sum that passes 64 bits stops at their greatest number and is Inexact.
    // No `Add`: `+` would not say that a sum stops.
    pub fn add(self, other: Precision<u64>) -> Precision<u64>
        ensures { result ≡ total self other }
    {
        match self.zip(other) {
            Precision::Exact((a, b)) => a
                .checked_add(b)
                .map_or(Precision::Inexact(u64::MAX), Precision::Exact),
            sides => sides.map(|(a, b)| a.saturating_add(b)),
        }
    }

    /// The difference, not below 0.
    // No `Sub`: `-` would not say that a difference stops.
    pub fn sub(self, other: Precision<u64>) -> Precision<u64>
        ensures { result ≡ both ◌-◌ self other }
    {
        self.zip(other).map(|(a, b)| a.saturating_sub(b))
    }

    /// A count above `most` becomes Inexact `most`.
    pub fn capped_at(self, most: u64) -> Precision<u64>
        ensures { result ≡ capped most self }
    {
        match self {
            Precision::Exact(count) | Precision::Inexact(count) if count > most => {
                Precision::Inexact(most)
            }
            kept => kept,
        }
    }

    /// Whether a present count is at most `most`.
    pub fn is_at_most(self, most: u64) -> bool
        ensures { result ≡ at_most most self }
    {
        self.get_value().is_none_or(|count| count <= most)
    }

    /// The count, an Absent one counting 0.
    pub fn or_zero(self) -> u64
        ensures { result ≡ or_zero self }
    {
        self.get_value().unwrap_or(0)
    }
}

/// `=5` is Exact, `~5` Inexact, `-` Absent.
// No padded form: a value has none of its own, so programs pad the text.
impl<T: fmt::Display> fmt::Display for Precision<T> {
    ghost output = { λ p. shown_as T.Display.output p };

    fn fmt<W: fmt::Write>(&self, f: &mut fmt::Formatter<W>) -> fmt::Result {
        match self {
            Precision::Exact(value) => write!(f, "={value}"),
            Precision::Inexact(value) => write!(f, "~{value}"),
            Precision::Absent => write!(f, "-"),
        }
    }
}
