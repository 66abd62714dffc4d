//! A cell from a text.
ghost use Rattle.std.specs.Prelude.{◌≡◌};
ghost use Rattle.cells.specs.Cells.{meaning};
ghost use Rattle.cells.specs.Refusals.{mapped};
ghost use Rattle.splitters.specs.Graphemes.{cell_width, grapheme};

use crate::splitter::Splitter;
use cells::cell::Cell;
use cells::cleaning::cleaned;
use cells::refusal::Refusal;
use cells::teenystring::TeenyString;

/// The columns of a clean text: as given, or else the splitter's.
fn columns_of<P: Splitter>(text: &[u8], width: Option<usize>) -> usize
    ensures { result ≡ cell_width P.Splitter.splits text.now width }
{
    width.unwrap_or_else(|| P::width_of(text).columns())
}

/// The cell of a text, of the width given or else the splitter's: 1, 2, 3 or 4, the smallest that fits.
pub fn new_grapheme<P: Splitter, A: Copy>(
    text: &[u8],
    width: Option<usize>,
    attrs: A,
) -> Result<Cell<A>, Refusal>
    ensures { mapped meaning result ≡ grapheme P.Splitter.splits text.now width attrs }
{
    if !P::is_good(text) {
        return Err(Refusal::NotGood);
    }
    let text = cleaned(text);
    if P::first_len(text) != text.len() {
        return Err(Refusal::NotOnePiece);
    }
    let text = TeenyString::new(text, columns_of::<P>(text, width))?;
    Ok(Cell { text, attrs })
}
