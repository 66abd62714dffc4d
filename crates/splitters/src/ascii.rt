//! The ASCII splitter: bytes below 80 (hexadecimal); each byte is a piece of width 1, but 0D 0A together is one.
ghost use Rattle.splitters.specs.Ascii.{ascii};

use crate::splitter::Splitter;
use crate::width::Width;

pub struct Ascii {}

impl Splitter for Ascii {
    ghost splits = { ascii };

    fn is_good(text: &[u8]) -> bool {
        text.iter().all(|b| *b < 0x80)
    }

    fn first_len(text: &[u8]) -> usize {
        match text {
            [] => 0,
            [0x0d, 0x0a, ..] => 2,
            _ => 1,
        }
    }

    fn width_of(_piece: &[u8]) -> Width {
        Width::Narrow
    }
}
