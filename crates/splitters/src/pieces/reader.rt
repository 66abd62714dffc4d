//! The reader of pieces: asked for the next, it gives a part of the caller's bytes.
ghost use Rattle.std.specs.Prelude.{◌≡◌, true, IfOk, All};
ghost use Rattle.std.specs.Iterator.{YieldsFirstBy, item_count};
ghost use Rattle.cells.specs.Refusals.{mapped};
ghost use Rattle.splitters.specs.Pieces.{pieces, parts};
ghost use Rattle.splitters.specs.Reading.{part_of, opened, Alone, Read};

use crate::ends::piece_end;
use crate::piece::Piece;
use crate::pieces::Pieces;
use crate::splitter::Splitter;
use cells::cleaning::is_unclean;
use cells::refusal::Refusal;
use std::marker::PhantomData;

impl<'a, P: Splitter> Pieces<'a, P> {
    /// A reader at the start of a text; 1 where the text is not good.
    pub fn new(text: &'a [u8]) -> Result<Pieces<'a, P>, Refusal>
        ensures good { IfOk result (λ p. P.Splitter.splits.good p.rest.now ≡ true) }
        ensures answer { mapped (λ p. (p.rest.now, p.at)) result ≡ opened P.Splitter.splits text.now }
        ensures read { IfOk result (λ p. Read P.Splitter.splits.first text.now) }
        ensures alone { IfOk result (λ p. All (Alone P.Splitter.splits) (pieces P.Splitter.splits.first text.now)) }
    {
        if !P::is_good(text) {
            return Err(Refusal::NotGood);
        }
        Ok(Pieces {
            rest: text,
            at: 0,
            splitter: PhantomData,
        })
    }
}

impl<'a, P: Splitter> Iterator for Pieces<'a, P> {
    type Item = Piece<'a>;

    // Of a good text what is left is good too.
    ghost next_gives = { λ s piece t. YieldsFirstBy part_of (λ s. parts P.Splitter.splits.first s.at s.rest.now) s piece t
        × (P.Splitter.splits.good s.rest.now ≡ true → P.Splitter.splits.good t.rest.now ≡ true) };

    ghost remaining = { item_count (λ s. parts P.Splitter.splits.first s.at s.rest.now) };

    /// The next piece, or none at the end.
    fn next(&mut self) -> Option<Piece<'a>> {
        if self.rest.is_empty() {
            return None;
        }
        let (bytes, rest) = self.rest.split_at(piece_end::<P>(self.rest, 0));
        let at = self.at;
        self.at += bytes.len();
        self.rest = rest;
        if is_unclean(bytes) {
            Some(Piece::Control { at, bytes })
        } else {
            Some(Piece::Text { at, bytes })
        }
    }
}
