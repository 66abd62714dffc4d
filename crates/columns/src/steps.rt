//! Steps on columns.
ghost use Rattle.std.specs.Prelude.{◌≡◌, ℕ, ◌+◌, ◌<◌, ◌≤◌, ◌&&◌, List, ◌++◌, length, nat_lt};
ghost use Rattle.cells.specs.Cells.{meaning, is_plain};
ghost use Rattle.rows.specs.Spread.{wide, columns_of};
ghost use Rattle.rows.specs.Columns.{inside, blanked, padded, over};
ghost use Rattle.columns.specs.Becoming.{held, Becomes};

use crate::cols::Columns;
use cells::attributes::Attributes;
use cells::cell::Cell;

pub(crate) fn is_wide<A: Copy>(c: &Cell<A>) -> bool
    ensures { result ≡ wide (meaning c.now) }
{
    c.text.width() == 2
}

impl<A: Copy> Columns<A> {
    /// Whether n columns from a place on would pass the limit: exact however far the place is.
    pub(crate) fn passes(&self, place: usize, n: usize) -> bool
        ensures { result ≡ nat_lt self.now.limit (place + n) }
    {
        self.limit < place.saturating_add(n)
    }

    /// Whether column x is the second of a wide cell.
    #[tactic(auto, using(crate::proofs::Seconds::inside_none, crate::proofs::Seconds::inside_past, crate::proofs::Seconds::inside_read))]
    pub(crate) fn is_second(&self, x: usize) -> bool
        ensures { result ≡ inside x (held self.now) }
    {
        if x == 0 || self.len() < x {
            return false;
        }
        is_wide(&self.at(x - 1))
    }

    /// A wide cell that starts just before column x becomes blanks.
    #[tactic(auto, using(crate::proofs::Seconds::inside_within, crate::proofs::Writes::blanked_same))]
    pub(crate) fn blank_before(&mut self, x: usize)
        ensures { Becomes self.old self.new (blanked x (held self.old)) }
    {
        if self.is_second(x) {
            let c = self.at(x - 1);
            self.set(x - 1, Cell::blank_with_attrs(c.attrs));
        }
    }

    /// The columns of c over those from x on.
    #[tactic(auto, using(crate::proofs::Means::wide_is, crate::proofs::Writes::write_two, crate::proofs::Writes::over_wide))]
    pub(crate) fn put(&mut self, x: usize, c: &Cell<A>)
        requires { (x ≤ length (held self.old)) × (x + (meaning c.now).width ≤ self.old.limit) }
        ensures { Becomes self.old self.new (over x (meaning c.now) (held self.old)) }
    {
        self.set(x, *c);
        if is_wide(c) {
            self.set(x + 1, Cell::blank_with_attrs(c.attrs));
        }
    }

    /// Adds a cell's columns at the end.
    pub(crate) fn push_cell(&mut self, c: &Cell<A>)
        requires { length (held self.old) + (meaning c.now).width ≤ self.old.limit }
        ensures { Becomes self.old self.new (held self.old ++ columns_of (meaning c.now)) }
    {
        self.push(*c);
        if is_wide(c) {
            self.push(Cell::blank_with_attrs(c.attrs));
        }
    }
}

impl<A: Attributes> Columns<A> {
    /// Whether a cell set in column x adds no column: a plain blank past the end.
    pub(crate) fn adds_nothing(&self, x: usize, c: &Cell<A>) -> bool
        ensures { result ≡ (nat_lt (length (held self.now)) x && is_plain A.Attributes.kind (meaning c.now)) }
    {
        self.len() < x && c.is_plain_blank()
    }

    /// Fills up to n columns with plain blanks.
    #[tactic(auto, using(crate::proofs::Writes::padded_same))]
    pub(crate) fn pad(&mut self, n: usize)
        requires { n ≤ self.old.limit }
        ensures { Becomes self.old self.new (padded A.Attributes.kind n (held self.old)) }
    {
        for _ in self.len()..n {
            self.push(Cell::blank());
        }
    }
}
