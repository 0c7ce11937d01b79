//! Why a call is refused.
ghost use Rattle.std.specs.Prelude.{◌≡◌, Some};
ghost use Rattle.std.specs.Fmt.{padded};
ghost use Rattle.sheet.specs.Names.{cause};
ghost use Rattle.sheet.specs.RefusalNumbers.{refusal_number, refused_column};

use std::error::Error;
use std::fmt;

/// The causes of a refusal, in the order of their numbers. Of several causes the
/// smallest number is given, and the sheet stays as it was.
#[derive(Clone, Copy, PartialEq, Eq, Debug)]
pub enum Refusal {
    /// 256 nodes stand, or node memory is full, or shorter than the head says.
    NodeMemory,
    /// A child does not stand, is beyond the limits or has an unlawful column;
    /// or a cut above the last node.
    Child,
    /// Over 16 key pairs or keys; no or over 8 children of a union.
    Count,
    /// A key index not below its child's width.
    KeyIndex,
    /// Over 64 columns; or the children of a union differ in width.
    Width,
    /// Column memory is full, or shorter than the head says; or the block of a
    /// child, or of the last node that a cut keeps, lies outside the used part.
    ColumnMemory,
    /// The node would have more than 2^26 rows.
    Rows,
    /// The node would have more than 2^36 bytes.
    Bytes,
    /// This column of a laid table is over the limits or unlawful.
    Column(usize),
}

impl Refusal {
    /// The number of its cause.
    // No From: `u8::from` would not say which number is meant.
    pub fn number(self) -> u8
        ensures { result ≡ refusal_number self }
    {
        match self {
            Refusal::NodeMemory => 1,
            Refusal::Child => 2,
            Refusal::Count => 3,
            Refusal::KeyIndex => 4,
            Refusal::Width => 5,
            Refusal::ColumnMemory => 6,
            Refusal::Rows => 7,
            Refusal::Bytes => 8,
            Refusal::Column(_) => 9,
        }
    }

    /// The laid column that is refused, if one is.
    pub fn column(self) -> Option<usize>
        ensures { result ≡ refused_column self }
    {
        match self {
            Refusal::Column(index) => Some(index),
            _ => None,
        }
    }
}

/// The cause in words.
impl fmt::Display for Refusal {
    ghost output = { λ r. Some (cause r) };

    ghost styled_output = { λ r spec. Some (padded spec (cause r)) };

    fn fmt<W: fmt::Write>(&self, f: &mut fmt::Formatter<W>) -> fmt::Result {
        // A pad in each arm: with one over the match the proof did not close.
        match self {
            Refusal::NodeMemory => f.pad("no room for a node"),
            Refusal::Child => f.pad("a node that does not stand"),
            Refusal::Count => f.pad("too many keys, or no or too many nodes"),
            Refusal::KeyIndex => f.pad("a key outside its table"),
            Refusal::Width => f.pad("too many columns, or not as many in each"),
            Refusal::ColumnMemory => f.pad("no room for the columns"),
            Refusal::Rows => f.pad("too many rows"),
            Refusal::Bytes => f.pad("too many bytes"),
            Refusal::Column(_) => f.pad("a column that cannot be"),
        }
    }
}

impl Error for Refusal {}
