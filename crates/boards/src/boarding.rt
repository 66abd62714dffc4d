//! A row set to a line of text, and its text filled up to a width.
ghost use Rattle.std.specs.Prelude.{◌≡◌};
ghost use Rattle.stores.specs.Stores.{Does, panel_of};
ghost use Rattle.boards.specs.Boards.{lined, come_to, boarded, Boarded, board_width};

use cells::attributes::Attributes;
use cells::refusal::Refusal;
use gauge::measure::Measure;
use gauge::measuring::measure;
use splitters::splitter::Splitter;
use stores::fill::Fill;
use stores::grid::Grid;
use stores::store::Store;

// A text with its attributes and numbers is no struct: two functions take them, and the second hands them on to the first.

/// Sets a row to a line at one number, and prunes it at another: 1, 3 or 6.
pub fn set_line<G: Grid>(
    row: &mut G,
    text: &[u8],
    attrs: &G::Attr,
    seqno: u64,
    pruned: u64,
) -> Result<(), Refusal>
    ensures { Does G.Store.row G.Store.number (λ s. lined G.Attr.Attributes.kind G.Split.splits (G.Fill.room (G.Store.row row.old).sizes) text.now attrs.now seqno pruned) row.old result row.new }
{
    row.from_text(text, attrs, seqno)?;
    row.prune_trailing_blanks(pruned);
    Ok(())
}

/// Puts a line on a row; what the line comes to.
pub fn put_line<G: Grid>(
    row: &mut G,
    line: &[u8],
    attrs: &G::Attr,
    seqno: u64,
    pruned: u64,
) -> Result<Measure, Refusal>
    ensures { Boarded (come_to G.Split.splits (G.Fill.room (G.Store.row row.old).sizes) attrs.now line.now) (boarded G.Attr.Attributes.kind G.Split.splits (G.Fill.room (G.Store.row row.old).sizes) attrs.now line.now seqno pruned) (panel_of G.Store.row G.Store.number row.old) result (panel_of G.Store.row G.Store.number row.new) }
{
    let m = measure::<G::Split>(line)?;
    set_line(row, line, attrs, seqno, pruned)?;
    Ok(m)
}

/// How wide a row of so many columns is shown: 40 for the door display, else 80 for the laptop, else as it is.
pub fn board_width(columns: usize) -> usize
    ensures { result ≡ board_width columns }
{
    if columns <= 40 {
        40
    } else if columns <= 80 {
        80
    } else {
        columns
    }
}
