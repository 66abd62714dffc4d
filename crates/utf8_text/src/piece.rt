//! The first piece: CR with LF, any other control alone, any other code point with all marks directly behind it.
ghost use Rattle.std.specs.Prelude.{◌≡◌};
ghost use Rattle.utf8_text.specs.Reading.{points};
ghost use Rattle.utf8_text.specs.Pieces.{attached, sizes, leading_marks, first_len};

use crate::kinds::{is_control, is_mark, size};
use crate::point::Points;

fn marks_len(behind: Points<'_>) -> usize
    ensures { result ≡ sizes (leading_marks (points behind.entry.0.now)) }
{
    behind.take_while(|c| is_mark(*c)).map(size).sum()
}

/// How many bytes belong to a piece behind its first code point.
fn attached_len(c: u32, mut behind: Points<'_>) -> usize
    ensures { result ≡ sizes (attached c (points behind.entry.0.now)) }
{
    if c == 0x0d {
        usize::from(behind.next() == Some(0x0a))
    } else if is_control(c) {
        0
    } else {
        marks_len(behind)
    }
}

/// How many bytes the first piece of a text has; 0 where the text begins with no character.
#[tactic(auto, using(crate::proofs::Points::piece_fits))]
pub fn first_len(text: &[u8]) -> usize
    ensures { result ≡ first_len text.now }
{
    let mut points = Points(text);
    let Some(c) = points.next() else {
        return 0;
    };
    size(c) + attached_len(c, points)
}
