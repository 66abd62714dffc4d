//! The cells that columns show, read one after the other.
ghost use Rattle.std.specs.Prelude.{◌≡◌, drop};
ghost use Rattle.std.specs.Iterator.{YieldsFirstBy, item_count};
ghost use Rattle.cells.specs.Cells.{meaning};
ghost use Rattle.rows.specs.Columns.{shown};
ghost use Rattle.columns.specs.Cols.{columns};
ghost use Rattle.columns.specs.Becoming.{held};

use crate::cols::Columns;
use cells::cell::Cell;

#[derive(Drop)]
pub(crate) struct Cells<'a, A> {
    columns: &'a [Cell<A>],
}

impl<'a, A: Copy> Cells<'a, A> {
    /// The cells from column x on.
    #[tactic(auto, using(crate::proofs::Means::length_cols, crate::proofs::Means::cols_from))]
    pub(crate) fn from(of: &'a Columns<A>, x: usize) -> Cells<'a, A>
        ensures { columns result.columns.now ≡ drop x (held of.now) }
    {
        let x = x.min(of.len());
        Cells {
            columns: &of.cells[x..],
        }
    }
}

impl<'a, A: Copy> Iterator for Cells<'a, A> {
    type Item = Cell<A>;

    ghost next_gives = { YieldsFirstBy meaning (λ s. shown (columns s.columns.now)) };

    ghost remaining = { item_count (λ s. shown (columns s.columns.now)) };

    fn next(&mut self) -> Option<Cell<A>> {
        let c = *self.columns.first()?;
        let n = c.text.width().min(self.columns.len());
        self.columns = &self.columns[n..];
        Some(c)
    }
}
