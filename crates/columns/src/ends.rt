//! The last cell, and the cells of other stores.
// Columns may end in half of a wide cell between two steps, so each step that needs whole cells asks for them.
ghost use Rattle.std.specs.Prelude.{◌≡◌, ℕ, ◌+◌, ◌<◌, ◌≤◌, List, [], ◌∷◌, ◌++◌, length, drop};
ghost use Rattle.cells.specs.Cells.{meaning};
ghost use Rattle.cells.specs.Refusals.{verdict};
ghost use Rattle.rows.specs.Lists.{span};
ghost use Rattle.rows.specs.Rows.{unless};
ghost use Rattle.rows.specs.Packing.{grid_rule};
ghost use Rattle.rows.specs.Spread.{spread};
ghost use Rattle.rows.specs.Columns.{Whole, shown};
ghost use Rattle.rows.specs.Lasts.{flag_cell, on_last};
ghost use Rattle.rows.specs.Edits.{some_cell};
ghost use Rattle.rows.specs.Trims.{up_to_last, not_plain};
ghost use Rattle.columns.specs.Cols.{room_of, LastOf};
ghost use Rattle.columns.specs.Becoming.{held, Becomes};

use crate::cols::Columns;
use crate::walk::Cells;
use cells::attributes::Attributes;
use cells::cell::Cell;
use cells::refusal::Refusal;
use stores::cellat::CellAt;
use stores::fill::Fill;
use stores::reader::Reader;
use stores::store::Store;

/// A cell with its flag set so.
fn flagged<A: Attributes>(c: &Cell<A>, on: bool) -> Cell<A>
    ensures { meaning result ≡ flag_cell A.Attributes.kind on (meaning c.now) }
{
    let mut attrs = c.attrs;
    attrs.set_wrapped(on);
    Cell {
        text: c.text,
        attrs,
    }
}

impl<A: Attributes> Columns<A> {
    /// The last cell, with the column in which it starts.
    #[tactic(auto, using(crate::proofs::Means::sized_cell, crate::proofs::Seconds::last_wide, crate::proofs::Seconds::last_narrow))]
    pub(crate) fn last(&self) -> Option<CellAt<A>>
        requires { Whole (held self.now) }
        ensures { LastOf (held self.now) result }
    {
        let end = self.len().checked_sub(1)?;
        let column = if self.is_second(end) { end - 1 } else { end };
        Some(CellAt {
            column,
            cell: self.at(column),
        })
    }

    /// Sets the flag of the last cell; where there is none, a plain blank comes first.
    pub(crate) fn flag_last(&mut self, on: bool)
        requires { Whole (held self.old) × (0 < self.old.limit) }
        ensures { Becomes self.old self.new
            (spread (on_last (flag_cell A.Attributes.kind on) (some_cell A.Attributes.kind (shown (held self.old))))) }
    {
        match self.last() {
            Some(last) => self.put(last.column, &flagged(&last.cell, on)),
            None => self.push(flagged(&Cell::blank(), on)),
        }
    }

    /// Adds a cell where it fits.
    #[tactic(auto, using(rows::proofs::Wholes::spread_append, crate::specs::Laws::span_held, crate::proofs::Dones::room_left, crate::proofs::Dones::room_none))]
    pub(crate) fn add(&mut self, c: &Cell<A>) -> Result<(), Refusal>
        requires { Whole (held self.old) }
        ensures answer { result ≡ verdict (grid_rule (room_of self.old.limit) (shown (held self.old)) (meaning c.now)) tt }
        ensures cells { Becomes self.old self.new
            (spread (unless (grid_rule (room_of self.old.limit) (shown (held self.old)) (meaning c.now))
            (shown (held self.old)) (shown (held self.old) ++ (meaning c.now ∷ [])))) }
    {
        if self.passes(self.len(), c.text.width()) {
            return Err(Refusal::Full);
        }
        self.push_cell(c);
        Ok(())
    }

    /// Adds the cells of a store at the end.
    #[tactic(auto, using(crate::proofs::Turns::one_more))]
    pub(crate) fn push_cells<T: Store<Attr = A>>(&mut self, other: &T)
        requires { length (held self.old) + span (T.Store.row other.now).cells ≤ self.old.limit }
        ensures { Becomes self.old self.new (held self.old ++ spread (T.Store.row other.now).cells) }
    {
        for c in Reader::new(other) {
            self.push_cell(&c);
        }
    }

    /// Drops plain blanks from the end.
    pub(crate) fn trim(&mut self)
        requires { Whole (held self.old) }
        ensures { Becomes self.old self.new
            (spread (up_to_last (not_plain A.Attributes.kind) (shown (held self.old)))) }
    {
        while let Some(last) = self.last() {
            if !last.cell.is_plain_blank() {
                return;
            }
            self.truncate(last.column);
        }
    }

    /// Gives the cells from a column on to another row.
    pub(crate) fn hand_on<R: Fill<Attr = A>>(&self, idx: usize, to: &mut R)
        requires { span (R.Store.row to.old).cells + span (shown (drop idx (held self.now)))
            ≤ (R.Fill.room (R.Store.row to.old).sizes).capacity }
        ensures row { (R.Store.row to.new).cells
            ≡ (R.Store.row to.old).cells ++ shown (drop idx (held self.now)) }
        ensures change { R.Store.number to.new ≡ R.Store.number to.old }
        ensures room { (R.Store.row to.new).sizes ≡ (R.Store.row to.old).sizes }
    {
        for c in Cells::from(self, idx) {
            let _ = to.append_cell(&c);
        }
    }
}
