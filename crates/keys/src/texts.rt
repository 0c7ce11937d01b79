//! Texts of eight bytes.
ghost use Rattle.std.specs.Prelude.{◌≡◌};
ghost use Rattle.keys.specs.Texts.{text_bytes};

/// A text of eight bytes, held in one word, the first byte highest: words
/// compare as their bytes do.
#[derive(Clone, Copy, PartialEq, Eq, PartialOrd, Ord, Debug)]
pub struct ShortText {
    word: u64,
}

impl From<[u8; 8]> for ShortText {
    ghost from_gives = { λ bytes text. text_bytes text ≡ bytes };

    fn from(bytes: [u8; 8]) -> ShortText {
        ShortText {
            word: u64::from_be_bytes(bytes),
        }
    }
}

impl From<ShortText> for [u8; 8] {
    ghost from_gives = { λ text bytes. bytes ≡ text_bytes text };

    fn from(text: ShortText) -> [u8; 8] {
        text.word.to_be_bytes()
    }
}
