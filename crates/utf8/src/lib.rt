//! The splitter for UTF-8.
#![tactic(auto)]

ghost use Rattle.utf8.specs.Utf8.{utf8_splits};

use splitters::splitter::Splitter;
use splitters::width::Width;

/// UTF-8 as RFC 3629 has it; marks belong to the code point before them, and some ranges are wide.
pub struct Utf8 {}

impl Splitter for Utf8 {
    ghost splits = { utf8_splits };

    fn is_good(text: &[u8]) -> bool {
        utf8_text::validator::is_utf8(text)
    }

    fn first_len(text: &[u8]) -> usize {
        utf8_text::piece::first_len(text)
    }

    fn width_of(piece: &[u8]) -> Width {
        if utf8_text::wide::begins_wide(piece) {
            Width::Wide
        } else {
            Width::Narrow
        }
    }
}
