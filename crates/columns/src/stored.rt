//! The column store as a store.
ghost use Rattle.std.specs.Prelude.{◌≡◌, ℕ, ◌≤◌, min, List, [], ◌∷◌, drop, vec_capacity};
ghost use Rattle.rows.specs.Columns.{shown};
ghost use Rattle.rows.specs.Packing.{grid_rule};
ghost use Rattle.columns.specs.Cols.{sized_room};
ghost use Rattle.columns.specs.Becoming.{held};
ghost use Rattle.std.proofs.Common.{rules};
ghost use Rattle.std.proofs.Math.Nat.{le_trans};
ghost use Rattle.columns.specs.Laws.{sized_shown, span_within};

use crate::cols::Columns;
use crate::vecstorage::VecStorage;
use cells::attributes::Attributes;
use cells::cell::Cell;
use cells::refusal::Refusal;
use splitters::splitter::Splitter;
use std::marker::PhantomData;
use stores::givens::check_cell;
use stores::store::Store;

impl<A: Attributes, P: Splitter> VecStorage<A, P> {
    /// A row that shows nothing, in memory handed over; the count is how many columns the caller means.
    pub fn new(cells: Vec<Cell<A>>, count: usize, seqno: u64) -> VecStorage<A, P>
        ensures row { held result.columns ≡ [] }
        ensures change { result.seqno ≡ seqno }
        ensures room { result.columns.limit ≡ min count (min (vec_capacity cells) 4096) }
    {
        VecStorage {
            columns: Columns::new(cells, count),
            seqno,
            splitter: PhantomData,
        }
    }
}

impl<A: Attributes, P: Splitter> Store for VecStorage<A, P> {
    type Attr = A;

    type Split = P;

    type Place = usize;

    ghost number = { λ s. s.seqno };

    ghost row = { λ s. record { cells = shown (held s.columns); sizes = s.columns.limit ∷ [] } };

    ghost rule = { λ sizes. grid_rule (sized_room sizes) };

    ghost left = { λ s p. shown (drop p (held s.columns)) };

    ghost within = { λ s. le_trans (span_within A.row.coded s.columns s.whole) s.columns.most };

    ghost sized = { λ s. sized_shown s.columns };

    ghost packer = { Prim.search rules };

    #[tactic(auto, using(crate::specs::Laws::whole_of, crate::specs::Laws::span_held))]
    fn len(&self) -> usize {
        self.columns.len()
    }

    fn current_seqno(&self) -> u64 {
        self.seqno
    }

    fn start(&self) -> usize {
        0
    }

    fn next_cell(&self, at: usize) -> Option<(Cell<A>, usize)> {
        if self.columns.len() <= at {
            return None;
        }
        let c = self.columns.at(at);
        Some((c, at + c.text.width()))
    }

    fn clear(&mut self) {
        self.columns.clear();
    }

    #[tactic(auto, using(crate::specs::Laws::whole_of, crate::proofs::Means::sized_cell, crate::proofs::Reading::last_gone))]
    fn drop_last(&mut self) {
        if let Some(last) = self.columns.last() {
            self.columns.truncate(last.column);
        }
    }

    #[tactic(auto, using(rows::proofs::Wholes::shown_spread, crate::specs::Laws::whole_of, crate::proofs::Dones::unless_same))]
    fn take(&mut self, c: &Cell<A>) -> Result<(), Refusal> {
        check_cell::<P, A>(c)?;
        self.columns.add(c)
    }
}
