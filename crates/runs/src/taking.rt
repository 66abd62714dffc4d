//! What refuses one more cell of a run store.
ghost use Rattle.std.specs.Prelude.{◌≡◌, [], ◌∷◌, ◌++◌};
ghost use Rattle.cells.specs.Cells.{meaning};
ghost use Rattle.cells.specs.Refusals.{verdict};
ghost use Rattle.rows.specs.Packing.{fuses, lacks};
ghost use Rattle.runs.specs.Sounds.{cells, refused};

use crate::clusterline::ClusteredLine;
use crate::clusters::lacks_runs;
use crate::texts::joined;
use cells::attributes::Attributes;
use cells::cell::Cell;
use cells::refusal::Refusal;
use splitters::splitter::Splitter;
use stores::givens::check_cell;
use stores::store::Store;

impl<A: Attributes, P: Splitter> ClusteredLine<A, P> {
    /// Whether a cell's text fuses with the last cell's.
    fn is_fusing(&self, c: &Cell<A>) -> bool
        ensures { result ≡ fuses P.Splitter.splits (cells P.Splitter.splits self.now) (meaning c.now) }
    {
        let s = &self.held;
        if s.count == 0 {
            return false;
        }
        let mut buffer = [0; 7];
        let text = c.text.read(&mut buffer);
        let last = &s.text[s.last..];
        let mut both = [0; 14];
        P::first_len(joined(&mut both, last, text)) > last.len()
    }

    /// Whether runs, text bytes or columns do not suffice for one more cell.
    #[tactic(auto, using(crate::proofs::Holding::lacks_by))]
    fn is_lacking(&self, c: &Cell<A>) -> bool
        ensures { result ≡ lacks A.Attributes.kind self.now.most self.now.bytes (cells P.Splitter.splits self.now ++ (meaning c.now ∷ [])) }
    {
        let s = &self.held;
        lacks_runs(&s.runs, s.most, &c.attrs)
            || c.text.len() > s.bytes - s.text.len()
            || self.len() + c.text.width() > 4096
    }

    /// Refuses a cell that cannot be one more: 1, 2, 10 or 11, the smallest that fits.
    pub(crate) fn check_take(&self, c: &Cell<A>) -> Result<(), Refusal>
        ensures { result ≡ verdict (refused A.Attributes.kind P.Splitter.splits self.now (meaning c.now)) tt }
    {
        check_cell::<P, A>(c)?;
        if self.is_fusing(c) {
            return Err(Refusal::Fuses);
        }
        if self.is_lacking(c) {
            return Err(Refusal::Full);
        }
        Ok(())
    }
}
