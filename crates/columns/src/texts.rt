//! Texts, piece by piece.
ghost use Rattle.std.specs.Prelude.{◌≡◌, ℕ, ◌+◌, ◌≤◌, true, false, List, ◌++◌, length, nat_lt};
ghost use Rattle.cells.specs.Cells.{meaning};
ghost use Rattle.cells.specs.Refusals.{first_of, verdict};
ghost use Rattle.splitters.specs.Pieces.{pieces};
ghost use Rattle.splitters.specs.Reading.{Alone};
ghost use Rattle.rows.specs.Lists.{span};
ghost use Rattle.rows.specs.Spread.{spread};
ghost use Rattle.rows.specs.Givens.{cell_of, cells_of, any_long};
ghost use Rattle.rows.specs.Edits.{text_refusals};
ghost use Rattle.columns.specs.Cols.{room_of};
ghost use Rattle.columns.specs.Becoming.{held, Becomes};

use crate::cols::Columns;
use cells::cell::Cell;
use cells::cleaning::cleaned;
use cells::refusal::Refusal;
use cells::teenystring::TeenyString;
use splitters::pieces::Pieces;
use splitters::splitter::Splitter;

/// The cell of a piece.
fn piece_cell<P: Splitter, A: Copy>(piece: &[u8], attrs: &A) -> Cell<A>
    requires short { length piece.now ≤ 7 }
    requires alone { Alone P.Splitter.splits piece.now }
    ensures { meaning result ≡ cell_of P.Splitter.splits attrs.now piece.now }
{
    let text = cleaned(piece);
    let text = TeenyString::new(text, P::width_of(text).columns()).unwrap();
    Cell {
        text,
        attrs: *attrs,
    }
}

impl<A: Copy> Columns<A> {
    /// Whether a good text is refused, and why: 3 or 6.
    #[tactic(auto, using(splitters::proofs::Cutting::parts_bytes))]
    pub(crate) fn check_text<P: Splitter>(&self, text: Pieces<P>, attrs: &A) -> Result<(), Refusal>
        requires good { P.Splitter.splits.good text.rest.now ≡ true }
        ensures { result ≡ verdict (first_of (text_refusals P.Splitter.splits (room_of self.now.limit) text.entry.rest.now attrs.now)) tt }
    {
        let mut used: usize = 0;
        for piece in text {
            let bytes = piece.bytes();
            if bytes.len() > 7 {
                return Err(Refusal::TooLong);
            }
            // Past the limit only long pieces are looked for.
            if used <= self.limit {
                used += P::width_of(cleaned(bytes)).columns();
            }
        }
        if used > self.limit {
            return Err(Refusal::PastCapacity);
        }
        Ok(())
    }

    /// Adds the cells of a text at the end.
    #[tactic(auto, using(splitters::proofs::Cutting::parts_bytes))]
    pub(crate) fn push_text<P: Splitter>(&mut self, text: Pieces<P>, attrs: &A)
        requires good { P.Splitter.splits.good text.rest.now ≡ true }
        requires short { any_long (pieces P.Splitter.splits.first text.rest.now) ≡ false }
        requires fits { length (held self.old) + span (cells_of P.Splitter.splits attrs.now text.rest.now) ≤ self.old.limit }
        ensures { Becomes self.old self.new
            (held self.old ++ spread (cells_of P.Splitter.splits attrs.now text.entry.rest.now)) }
    {
        for piece in text {
            self.push_cell(&piece_cell::<P, A>(piece.bytes(), attrs));
        }
    }
}
