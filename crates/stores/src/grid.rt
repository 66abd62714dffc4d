//! A grid: a store that admits all that fits its capacity, and carries out the editing calls. Its number is the change number.
ghost use Rattle.std.specs.Prelude.{◌≡◌, ℕ, ◌≤◌, List, Ok};
ghost use Rattle.cells.specs.Cells.{Shown, meaning};
ghost use Rattle.rows.specs.Rows.{Room, Done};
ghost use Rattle.rows.specs.Edits.{set_cell, insert_cell, erase_cell, remove_cell, prune_trailing_blanks};
ghost use Rattle.rows.specs.Edits.{resize, set_last_cell_was_wrapped, append_line, split_first, split_second};
ghost use Rattle.stores.specs.Stores.{Does, panel_of, state_of};

use crate::fill::Fill;
use crate::store::Store;
use cells::attributes::Attributes;
use cells::cell::Cell;
use cells::refusal::Refusal;
use splitters::splitter::Splitter;

pub trait Grid: Fill {
    /// Sets the cell in column x: 1, 2 or 6.
    fn set_cell(&mut self, x: usize, c: &Cell<Self::Attr>, seqno: u64) -> Result<(), Refusal>
        ensures { Does Self.Store.row Self.Store.number
            (set_cell Self.Attr.Attributes.kind Self.Split.splits (Self.Fill.room (Self.Store.row self.old).sizes)
            x (meaning c.now) seqno)
            self.old result self.new };

    /// Puts a cell in before column x; what stands before the margin goes: 1, 2, 5, 6 or 7.
    fn insert_cell(
        &mut self,
        x: usize,
        c: &Cell<Self::Attr>,
        margin: usize,
        seqno: u64,
    ) -> Result<(), Refusal>
        ensures { Does Self.Store.row Self.Store.number
            (insert_cell Self.Attr.Attributes.kind Self.Split.splits (Self.Fill.room (Self.Store.row self.old).sizes)
            x (meaning c.now) margin seqno)
            self.old result self.new };

    /// Removes column x and adds a plain blank at the end.
    fn erase_cell(&mut self, x: usize, seqno: u64)
        ensures { Does Self.Store.row Self.Store.number
            (erase_cell Self.Attr.Attributes.kind x seqno)
            self.old (Ok tt) self.new };

    /// Removes column x.
    fn remove_cell(&mut self, x: usize, seqno: u64)
        ensures { Does Self.Store.row Self.Store.number (remove_cell x seqno) self.old (Ok tt) self.new };

    fn prune_trailing_blanks(&mut self, seqno: u64)
        ensures { Does Self.Store.row Self.Store.number
            (prune_trailing_blanks Self.Attr.Attributes.kind seqno)
            self.old (Ok tt) self.new };

    /// Cuts, or adds plain blanks: 6 or 7.
    fn resize(&mut self, width: usize, seqno: u64) -> Result<(), Refusal>
        ensures { Does Self.Store.row Self.Store.number
            (resize Self.Attr.Attributes.kind (Self.Fill.room (Self.Store.row self.old).sizes) width seqno)
            self.old result self.new };

    /// Sets the flag of the last shown cell; a row with none first gets a plain blank: 6.
    fn set_last_cell_was_wrapped(&mut self, on: bool, seqno: u64) -> Result<(), Refusal>
        ensures { Does Self.Store.row Self.Store.number
            (set_last_cell_was_wrapped Self.Attr.Attributes.kind (Self.Fill.room (Self.Store.row self.old).sizes) on seqno)
            self.old result self.new };

    /// Appends the cells of any store with the same splitter and kind: 6.
    fn append_line<T: Store<Attr = Self::Attr, Split = Self::Split>>(
        &mut self,
        other: &T,
        seqno: u64,
    ) -> Result<(), Refusal>
        ensures { Does Self.Store.row Self.Store.number
            (append_line (Self.Fill.room (Self.Store.row self.old).sizes) (T.Store.row other.now).cells seqno)
            self.old result self.new };

    /// Moves the columns from idx on into a second row, whose number becomes the one given: 7 or 9.
    fn split_off<R: Fill<Attr = Self::Attr, Split = Self::Split>>(
        &mut self,
        idx: usize,
        second: &mut R,
        seqno: u64,
    ) -> Result<(), Refusal>
        ensures first { Does Self.Store.row Self.Store.number
            (split_first (R.Fill.room (R.Store.row second.old).sizes) idx)
            self.old result self.new }
        ensures second { Done
            (split_second (R.Fill.room (R.Store.row second.old).sizes) idx seqno
            (state_of Self.Store.row Self.Store.number self.old))
            (panel_of R.Store.row R.Store.number second.old) result (panel_of R.Store.row R.Store.number second.new) };
}
