//! Steps of an insertion.
// A margin is above 0 in each of them: the check before them refuses 0. It is the call's own number, and no type of its own is made of it.
ghost use Rattle.std.specs.Prelude.{◌≡◌, ℕ, ◌+◌, ◌<◌, ◌≤◌, true, not, ◌&&◌, List, ◌∷◌, length, take, nat_le, nat_lt};
ghost use Rattle.cells.specs.Cells.{meaning};
ghost use Rattle.cells.specs.Refusals.{first_of, verdict};
ghost use Rattle.rows.specs.Spread.{wide};
ghost use Rattle.rows.specs.Columns.{between};
ghost use Rattle.rows.specs.Edits.{made_room, parts_wide, insert_refusals};
ghost use Rattle.columns.specs.Cols.{room_of};
ghost use Rattle.columns.specs.Becoming.{held, Becomes};

use crate::cols::Columns;
use crate::steps::is_wide;
use cells::attributes::Attributes;
use cells::cell::Cell;
use cells::refusal::Refusal;
use splitters::splitter::Splitter;
use stores::givens::check_cell;

/// Moves everything one to the right; the first becomes `c`, and the last goes.
fn shift<T: Copy>(s: &mut [T], c: T)
    ensures { s.new ≡ take (length s.old) (c ∷ s.old) }
{
    let mut held = c;
    for slot in s.iter_mut() {
        held = std::mem::replace(slot, held);
    }
}

impl<A: Attributes> Columns<A> {
    /// Whether the steps before an insertion would part a wide cell.
    #[tactic(auto, using(crate::proofs::Seconds::inside_next, crate::proofs::Seconds::parts_short, crate::proofs::Seconds::parts_below, crate::proofs::Seconds::parts_above))]
    fn parts_wide(&self, x: usize, margin: usize) -> bool
        requires { 0 < margin }
        ensures { result ≡ parts_wide A.Attributes.kind x margin (held self.now) }
    {
        if self.len() < margin {
            return self.is_second(x);
        }
        if self.is_second(margin - 1) {
            return true;
        }
        if x < margin {
            return self.is_second(x);
        }
        self.is_second(x.saturating_add(1))
    }

    /// How many columns there are once room is made.
    fn room_after(&self, x: usize, margin: usize) -> usize
        requires { 0 < margin }
        ensures { result ≡ length (made_room A.Attributes.kind x margin (held self.now)) }
    {
        if margin <= self.len() {
            return x.max(self.len() - 1);
        }
        x.max(self.len())
    }

    /// Whether an insertion is refused, and why.
    pub(crate) fn check_insert<P: Splitter>(
        &self,
        x: usize,
        c: &Cell<A>,
        margin: usize,
    ) -> Result<(), Refusal>
        ensures { result ≡ verdict (first_of (insert_refusals A.Attributes.kind P.Splitter.splits (room_of self.now.limit)
            x (meaning c.now) margin (held self.now))) tt }
    {
        check_cell::<P, A>(c)?;
        if margin == 0 {
            return Err(Refusal::MarginZero);
        }
        if self.passes(self.room_after(x, margin), c.text.width()) {
            return Err(Refusal::PastCapacity);
        }
        if self.parts_wide(x, margin) {
            return Err(Refusal::PartsWide);
        }
        Ok(())
    }

    /// Whether an insertion only moves columns up to the margin: a narrow cell, before a margin within the row.
    pub(crate) fn slides(&self, x: usize, margin: usize, c: &Cell<A>) -> bool
        ensures { result ≡ (nat_lt x margin && (nat_le margin (length (held self.now)) && not (wide (meaning c.now)))) }
    {
        x < margin && margin <= self.len() && !is_wide(c)
    }

    /// The columns from x up to the margin move one to the right, and c comes in at x.
    pub(crate) fn slide(&mut self, x: usize, margin: usize, c: &Cell<A>)
        requires { (nat_lt x margin && (nat_le margin (length (held self.old)) && not (wide (meaning c.now)))) ≡ true }
        ensures { Becomes self.old self.new
            (between x (meaning c.now) (made_room A.Attributes.kind x margin (held self.old))) }
    {
        shift(&mut self.cells[x..margin], *c);
    }

    /// The column before a margin within the row goes, and the row is filled up to x.
    pub(crate) fn make_room(&mut self, x: usize, margin: usize)
        requires { (0 < margin) × (x ≤ self.old.limit) }
        ensures { Becomes self.old self.new (made_room A.Attributes.kind x margin (held self.old)) }
    {
        if margin <= self.len() {
            let _gone = self.remove(margin - 1);
        }
        self.pad(x);
    }

    /// The columns of c put in before column x.
    pub(crate) fn put_in(&mut self, x: usize, c: &Cell<A>)
        requires { (x ≤ length (held self.old)) × (length (held self.old) + (meaning c.now).width ≤ self.old.limit) }
        ensures { Becomes self.old self.new (between x (meaning c.now) (held self.old)) }
    {
        if is_wide(c) {
            self.insert(x, Cell::blank_with_attrs(c.attrs));
        }
        self.insert(x, *c);
    }
}
