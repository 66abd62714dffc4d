//! A splitter is one of several behind one interface; docs/TEXT.md has its laws.
ghost use Rattle.std.specs.Prelude.{◌≡◌};
ghost use Rattle.splitters.specs.Splits.{Splits};

use crate::width::Width;

pub trait Splitter {
    /// What its functions answer, on every text, and the laws that this keeps.
    ghost splits: { Splits };

    fn is_good(text: &[u8]) -> bool
        ensures { result ≡ splits.good text.now };

    /// The length of the first piece.
    fn first_len(text: &[u8]) -> usize
        ensures { result ≡ splits.first text.now };

    fn width_of(piece: &[u8]) -> Width
        ensures { result ≡ splits.width piece.now };
}
