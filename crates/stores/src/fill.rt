//! What a second row needs: a store with a capacity, which a text or another row's cells can fill.
ghost use Rattle.std.specs.Prelude.{◌≡◌, ℕ, ◌≤◌, List};
ghost use Rattle.cells.specs.Cells.{Shown, meaning};
ghost use Rattle.rows.specs.Lists.{span};
ghost use Rattle.rows.specs.Rows.{Room, most_columns};
ghost use Rattle.rows.specs.Edits.{from_text};
ghost use Rattle.rows.specs.Packing.{grid_rule};
ghost use Rattle.stores.specs.Stores.{Does, append_cell};

use crate::store::Store;
use cells::attributes::Attributes;
use cells::cell::Cell;
use cells::refusal::Refusal;
use splitters::splitter::Splitter;

pub trait Fill: Store {
    /// The room, by the sizes.
    ghost room: { List ℕ → Room };

    fn capacity(&self) -> usize
        ensures { result ≡ (room (Self.Store.row self.now).sizes).capacity };

    /// Empties the row, sets its number, and appends one cleaned cell for each piece: 1, 3 or 6.
    fn from_text(&mut self, text: &[u8], attrs: &Self::Attr, seqno: u64) -> Result<(), Refusal>
        ensures { Does Self.Store.row Self.Store.number
            (λ _. from_text Self.Split.splits (room (Self.Store.row self.old).sizes) text.now attrs.now seqno)
            self.old result self.new };

    /// Adds a cell that another row holds: 11 where it does not fit.
    fn append_cell(&mut self, c: &Cell<Self::Attr>) -> Result<(), Refusal>
        ensures { Does Self.Store.row Self.Store.number
            (append_cell (grid_rule (room (Self.Store.row self.old).sizes)) (meaning c.now))
            self.old result self.new };

    ghost most: { (g : Self) → (room (Self.Store.row g).sizes).capacity ≤ most_columns };

    ghost fits: { (g : Self) → span (Self.Store.row g).cells ≤ (room (Self.Store.row g).sizes).capacity };

    /// It takes all that fits its capacity.
    ghost admits: { (sizes : List ℕ) (cells : List (Shown Self.Attr)) (c : Shown Self.Attr)
        → Self.Store.rule sizes cells c ≡ grid_rule (room sizes) cells c };
}
