//! Columns one at a time.
ghost use Rattle.std.specs.Prelude.{◌≡◌, ℕ, ◌+◌, ◌<◌, ◌≤◌, min, List, [], ◌∷◌, ◌++◌, length, take, drop, slice_index_or, vec_capacity};
ghost use Rattle.cells.specs.Cells.{meaning};
ghost use Rattle.rows.specs.Columns.{without};
ghost use Rattle.columns.specs.Becoming.{held, Becomes};

use crate::cols::Columns;
use cells::cell::Cell;

impl<A: Copy> Columns<A> {
    /// No columns, in memory handed over; the count is how many the caller means.
    pub(crate) fn new(mut cells: Vec<Cell<A>>, count: usize) -> Columns<A>
        ensures row { held result ≡ [] }
        ensures limit { result.limit ≡ min count (min (vec_capacity cells) 4096) }
    {
        cells.clear();
        let limit = count.min(cells.capacity().min(4096));
        Columns { cells, limit }
    }

    pub(crate) fn len(&self) -> usize
        ensures { result ≡ length (held self.now) }
    {
        self.cells.len()
    }

    /// What stands in column x.
    pub(crate) fn at(&self, x: usize) -> Cell<A>
        requires { x < length (held self.now) }
        ensures { meaning result ≡ slice_index_or (held self.now) x (meaning result) }
    {
        self.cells[x]
    }

    /// One more column at the end.
    pub(crate) fn push(&mut self, c: Cell<A>)
        requires { length (held self.old) < self.old.limit }
        ensures { Becomes self.old self.new (held self.old ++ (meaning c ∷ [])) }
    {
        self.cells.push_reserved(c);
    }

    /// Column x becomes c, or c is added there.
    pub(crate) fn set(&mut self, x: usize, c: Cell<A>)
        requires { (x ≤ length (held self.old)) × (x < self.old.limit) }
        ensures { Becomes self.old self.new
            (take x (held self.old) ++ (meaning c ∷ drop (x + 1) (held self.old))) }
    {
        if x < self.len() {
            self.cells[x] = c;
        } else {
            self.push(c);
        }
    }

    /// A column put in before column x.
    pub(crate) fn insert(&mut self, x: usize, c: Cell<A>)
        requires { (x ≤ length (held self.old)) × (length (held self.old) < self.old.limit) }
        ensures { Becomes self.old self.new (take x (held self.old) ++ (meaning c ∷ drop x (held self.old))) }
    {
        let _ = self.cells.insert(x, c);
    }

    /// Column x goes; what stood there.
    pub(crate) fn remove(&mut self, x: usize) -> Cell<A>
        requires { x < length (held self.old) }
        ensures { Becomes self.old self.new (without x (held self.old)) }
    {
        self.cells.remove(x)
    }

    /// At most n columns stay.
    pub(crate) fn truncate(&mut self, n: usize)
        ensures { Becomes self.old self.new (take n (held self.old)) }
    {
        self.cells.truncate(n);
    }

    pub(crate) fn clear(&mut self)
        ensures { Becomes self.old self.new [] }
    {
        self.cells.clear();
    }
}
