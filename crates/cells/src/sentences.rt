//! Each refusal in words, for whoever made the call.
ghost use Rattle.std.specs.Prelude.{Some};
ghost use Rattle.cells.specs.Refusals.{sentence};

use crate::refusal::Refusal;
use std::error::Error;
use std::fmt;

impl fmt::Display for Refusal {
    ghost output = { λ why. Some (sentence why) };

    fn fmt<W: fmt::Write>(&self, f: &mut fmt::Formatter<W>) -> fmt::Result {
        f.write_str(match self {
            Refusal::NotGood => "the text is not good text",
            Refusal::NotOnePiece => "the text is not one piece",
            Refusal::TooLong => "a piece of the text is longer than 7 bytes",
            Refusal::BadWidth => "the width is not 1 or 2, or is 2 for a space",
            Refusal::MarginZero => "the margin is 0",
            Refusal::PastCapacity => "the row would pass its capacity",
            Refusal::PartsWide => "a wide cell would be parted",
            Refusal::NoSuchRow => "there is no such wrapped row",
            Refusal::TooSmall => "the memory or row for the result is too small",
            Refusal::Fuses => "two neighbouring texts fuse",
            Refusal::Full => "the store has no room",
            Refusal::BadType => "there is no such semantic type",
        })
    }
}

impl Error for Refusal {}
