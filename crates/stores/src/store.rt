//! A store: a list of shown cells of at most 4,096 columns, and a number that its own calls leave. docs/STORES.md has its laws.
ghost use Rattle.std.specs.Prelude.{◌≡◌, ℕ, ◌≤◌, List, Ok, Option};
ghost use Rattle.std.specs.List.{AllByRecursion, slice_get};
ghost use Rattle.cells.specs.Cells.{Shown, meaning};
ghost use Rattle.cells.specs.declared.refusal.Refusal.{Refusal};
ghost use Rattle.rows.specs.Lists.{span};
ghost use Rattle.rows.specs.Rows.{most_columns};
ghost use Rattle.rows.specs.Spread.{placed};
ghost use Rattle.rows.specs.Bounds.{Sized};
ghost use Rattle.rows.specs.Making.{Packer};
ghost use Rattle.rows.specs.Packing.{emptied, drop_last, take_cell};
ghost use Rattle.stores.specs.Stores.{Held, Does};
ghost use Rattle.stores.specs.Reading.{found, Step};

use crate::cellat::CellAt;
use cells::attributes::Attributes;
use cells::cell::Cell;
use cells::refusal::Refusal;
use splitters::splitter::Splitter;

pub trait Store {
    type Attr: Attributes;

    type Split: Splitter;

    type Place: Copy;

    /// The change number.
    ghost number: { Self → ℕ };

    /// The shown cells, and the sizes of its memory, which no call changes.
    ghost row: { Self → Held Self.Attr };

    /// What refuses one more cell, by sizes, cells and the new cell.
    ghost rule: { List ℕ → List (Shown Self.Attr) → Shown Self.Attr → Option Refusal };

    /// What a reader at a place has still to give.
    ghost left: { Self → Self.Place → List (Shown Self.Attr) };

    /// How many columns the cells take.
    fn len(&self) -> usize
        ensures { result ≡ span (row self.now).cells };

    fn current_seqno(&self) -> u64
        ensures { result ≡ number self.now };

    /// The n-th cell, from 0, with its column.
    fn nth_cell(&self, n: usize) -> Option<CellAt<Self::Attr>>
        ensures { found result ≡ slice_get (placed (row self.now).cells) n }
    {
        let mut at = self.start();
        let mut column: usize = 0;
        for _ in 0..n {
            let (c, behind) = self.next_cell(at)?;
            column += c.text.width();
            at = behind;
        }
        let (cell, _) = self.next_cell(at)?;
        Some(CellAt { column, cell })
    }

    /// The place of a reader that has all the cells to give.
    fn start(&self) -> Self::Place
        ensures { left self.now result ≡ (row self.now).cells };

    /// The cell at a place, if any, and the place behind it.
    fn next_cell(&self, at: Self::Place) -> Option<(Cell<Self::Attr>, Self::Place)>
        ensures { Step (left self.now) at result };

    fn clear(&mut self)
        ensures { Does row number emptied self.old (Ok tt) self.new };

    /// Drops the last cell, if there is one.
    fn drop_last(&mut self)
        ensures { Does row number drop_last self.old (Ok tt) self.new };

    /// Takes one more cell: 1 or 2 where it is no piece of the splitter, else what the rule says.
    fn take(&mut self, c: &Cell<Self::Attr>) -> Result<(), Refusal>
        ensures { Does row number
            (take_cell Self.Split.Splitter.splits (rule (row self.old).sizes) (meaning c.now))
            self.old result self.new };

    ghost within: { (s : Self) → span (row s).cells ≤ most_columns };

    ghost sized: { (s : Self) → AllByRecursion Sized (row s).cells };

    /// Taking is refused as 10 or 11.
    ghost packer: { (sizes : List ℕ) → Packer (rule sizes) };
}
