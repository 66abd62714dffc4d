//! What refuses a given cell.
ghost use Rattle.std.specs.Prelude.{◌≡◌};
ghost use Rattle.cells.specs.Cells.{meaning};
ghost use Rattle.cells.specs.Refusals.{first_of, verdict};
ghost use Rattle.rows.specs.Givens.{cell_refusals};

use cells::cell::Cell;
use cells::refusal::Refusal;
use splitters::splitter::Splitter;

/// Refuses a cell that is no cell of the splitter: 1 where the text is not good, 2 where it is not one piece.
pub fn check_cell<P: Splitter, A: Copy>(c: &Cell<A>) -> Result<(), Refusal>
    ensures { result ≡ verdict (first_of (cell_refusals P.Splitter.splits (meaning c.now))) tt }
{
    let mut buffer = [0; 7];
    let text = c.text.read(&mut buffer);
    if !P::is_good(text) {
        return Err(Refusal::NotGood);
    }
    if P::first_len(text) != text.len() {
        return Err(Refusal::NotOnePiece);
    }
    Ok(())
}
