//! A piece of a text: a part of the caller's bytes with its place, shown as it is or a control that becomes a blank.
ghost use Rattle.std.specs.Prelude.{◌≡◌};
ghost use Rattle.splitters.specs.Reading.{part_of};

#[derive(Clone, Copy, Debug, PartialEq, Eq)]
pub enum Piece<'a> {
    Text { at: usize, bytes: &'a [u8] },
    Control { at: usize, bytes: &'a [u8] },
}

impl<'a> Piece<'a> {
    /// The piece's part of the caller's bytes.
    pub fn bytes(self) -> &'a [u8]
        ensures { result.now ≡ (part_of self.entry).bytes }
    {
        match self {
            Piece::Text { bytes, .. } | Piece::Control { bytes, .. } => bytes,
        }
    }
}
