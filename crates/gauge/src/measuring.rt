//! Measuring a line, with any splitter.
ghost use Rattle.std.specs.Prelude.{◌≡◌, ◌+◌, ◌^◌, ◌<◌};
ghost use Rattle.splitters.specs.Reading.{part_of};
ghost use Rattle.gauge.specs.Measures.{measured, tallied};

use crate::measure::Measure;
use cells::cleaning::cleaned;
use cells::refusal::Refusal;
use splitters::piece::Piece;
use splitters::pieces::Pieces;
use splitters::splitter::Splitter;

/// The counts with one piece more; 3 where the piece is over seven bytes.
fn with_piece<P: Splitter>(measure: Measure, piece: Piece<'_>) -> Result<Measure, Refusal>
    requires { (measure.cells + 1 < 2 ^ 64) × (measure.controls + 1 < 2 ^ 64) × (measure.columns + 2 < 2 ^ 128) }
    ensures { result ≡ tallied P.Splitter.splits measure (part_of piece.entry) }
{
    let text = cleaned(piece.bytes());
    if text.len() > 7 {
        return Err(Refusal::TooLong);
    }
    Ok(Measure {
        columns: measure.columns + P::width_of(text).columns() as u128,
        cells: measure.cells + 1,
        controls: measure.controls + usize::from(matches!(piece, Piece::Control { .. })),
    })
}

/// The columns, cells and controls of a line; 1 where it is not good text, 3 where a piece is over seven bytes.
pub fn measure<P: Splitter>(text: &[u8]) -> Result<Measure, Refusal>
    ensures { result ≡ measured P.Splitter.splits text.now }
{
    let mut measure = Measure {
        columns: 0,
        cells: 0,
        controls: 0,
    };
    for piece in Pieces::<P>::new(text)? {
        measure = with_piece::<P>(measure, piece)?;
    }
    Ok(measure)
}
