//! Wide code points.
ghost use Rattle.std.specs.Prelude.{◌≡◌};
ghost use Rattle.utf8_text.specs.Wide.{wide, begins_wide};

use crate::point::Points;

/// The first and the last code point of each wide range, in order.
const WIDE: &[(u32, u32)] = &[
    (0x1100, 0x115F),
    (0x2E80, 0x303E),
    (0x3041, 0xA4CF),
    (0xAC00, 0xD7A3),
    (0xF900, 0xFAFF),
    (0xFE10, 0xFE19),
    (0xFE30, 0xFE6F),
    (0x1F300, 0x1F64F),
    (0x1F900, 0x1F9FF),
    (0x20000, 0x2FFFD),
    (0x30000, 0x3FFFD),
];

/// Whether a code point lies in a wide range.
fn is_wide(c: u32) -> bool
    ensures { result ≡ wide c }
{
    for (first, last) in WIDE {
        if c <= *last {
            return *first <= c;
        }
    }
    false
}

/// Whether the first code point of a text is wide; not where the text begins with no character.
pub fn begins_wide(text: &[u8]) -> bool
    ensures { result ≡ begins_wide text.now }
{
    Points(text).next().is_some_and(is_wide)
}
