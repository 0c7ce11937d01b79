//! Short lists, as a node keeps them.
ghost use Rattle.std.specs.Prelude.{◌≡◌, ◌≤◌, length};
ghost use Rattle.sheet.specs.Shorts.{kept_as};

use questions::MAX_PAIRS;

/// At most sixteen values: the first `len` of the items. Where memory holds a
/// larger `len`, all items count.
// A length beside the items, and no `Vec`: a node lies in memory that is handed in.
#[derive(Clone, Copy, PartialEq, Eq, Debug)]
// Derived equality compares the places after the values too: of lists that calls made
// these hold a filler.
pub struct Short<T> {
    pub items: [T; MAX_PAIRS],
    pub len: usize,
}

/// A short list of these values.
pub(crate) fn short_of<T: Copy>(filler: T, values: &[T]) -> Short<T>
    requires { length values.now ≤ 16 }
    ensures { result ≡ kept_as filler values.now }
{
    let mut items = [filler; MAX_PAIRS];
    items[..values.len()].copy_from_slice(values);
    Short {
        items,
        len: values.len(),
    }
}
