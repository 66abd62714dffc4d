//! The column store as a grid.
ghost use Rattle.std.specs.Prelude.{ℕ, List, refl};
ghost use Rattle.columns.specs.Cols.{sized_room};
ghost use Rattle.columns.specs.Laws.{span_within};

use crate::vecstorage::VecStorage;
use cells::attributes::Attributes;
use cells::cell::Cell;
use cells::refusal::Refusal;
use splitters::pieces::Pieces;
use splitters::splitter::Splitter;
use stores::fill::Fill;
use stores::givens::check_cell;
use stores::grid::Grid;
use stores::store::Store;

impl<A: Attributes, P: Splitter> Fill for VecStorage<A, P> {
    ghost room = { sized_room };

    ghost most = { λ s. s.columns.most };

    ghost fits = { λ s. span_within A.row.coded s.columns s.whole };

    ghost admits = { λ sizes cells c. refl };

    fn capacity(&self) -> usize {
        self.columns.limit
    }

    #[tactic(auto, using(rows::proofs::Wholes::shown_spread, crate::proofs::Cuts::opened_whole))]
    fn from_text(&mut self, text: &[u8], attrs: &A, seqno: u64) -> Result<(), Refusal> {
        let pieces = Pieces::<P>::new(text)?;
        self.columns.check_text(pieces, attrs)?;
        self.columns.clear();
        self.columns.push_text(pieces, attrs);
        self.seqno = seqno;
        Ok(())
    }

    #[tactic(auto, using(rows::proofs::Wholes::shown_spread, crate::specs::Laws::whole_of, crate::proofs::Dones::unless_same))]
    fn append_cell(&mut self, c: &Cell<A>) -> Result<(), Refusal> {
        self.columns.add(c)
    }
}

impl<A: Attributes, P: Splitter> Grid for VecStorage<A, P> {
    fn set_cell(&mut self, x: usize, c: &Cell<A>, seqno: u64) -> Result<(), Refusal> {
        check_cell::<P, A>(c)?;
        if self.columns.passes(x, c.text.width()) {
            return Err(Refusal::PastCapacity);
        }
        if self.columns.adds_nothing(x, c) {
            self.seqno = self.seqno.max(seqno);
            return Ok(());
        }
        self.columns.pad(x);
        self.columns.blank_before(x);
        self.columns.put(x, c);
        self.seqno = self.seqno.max(seqno);
        Ok(())
    }

    fn insert_cell(
        &mut self,
        x: usize,
        c: &Cell<A>,
        margin: usize,
        seqno: u64,
    ) -> Result<(), Refusal> {
        self.columns.check_insert::<P>(x, c, margin)?;
        if self.columns.slides(x, margin, c) {
            self.columns.slide(x, margin, c);
            self.seqno = self.seqno.max(seqno);
            return Ok(());
        }
        self.columns.make_room(x, margin);
        self.columns.put_in(x, c);
        self.seqno = self.seqno.max(seqno);
        Ok(())
    }

    fn erase_cell(&mut self, x: usize, seqno: u64) {
        if x >= self.columns.len() {
            return;
        }
        self.columns.blank_before(x);
        let _gone = self.columns.remove(x);
        self.columns.push(Cell::blank());
        self.seqno = self.seqno.max(seqno);
    }

    fn remove_cell(&mut self, x: usize, seqno: u64) {
        if x >= self.columns.len() {
            return;
        }
        self.columns.blank_before(x);
        let _gone = self.columns.remove(x);
        self.seqno = self.seqno.max(seqno);
    }

    #[tactic(auto, using(rows::proofs::Wholes::whole_spread, rows::proofs::Wholes::shown_spread, crate::specs::Laws::whole_of, crate::specs::Laws::span_held, crate::specs::Laws::sized_shown, crate::proofs::Dones::prune_count))]
    fn prune_trailing_blanks(&mut self, seqno: u64) {
        let before = self.columns.len();
        self.columns.trim();
        if self.columns.len() < before {
            self.seqno = self.seqno.max(seqno);
        }
    }

    #[tactic(auto, using(crate::specs::Laws::whole_of))]
    fn resize(&mut self, width: usize, seqno: u64) -> Result<(), Refusal> {
        if self.columns.limit < width {
            return Err(Refusal::PastCapacity);
        }
        if self.columns.is_second(width) {
            return Err(Refusal::PartsWide);
        }
        self.columns.truncate(width);
        self.columns.pad(width);
        self.seqno = self.seqno.max(seqno);
        Ok(())
    }

    #[tactic(auto, using(rows::proofs::Wholes::shown_spread, crate::specs::Laws::whole_of, crate::specs::Laws::span_within, crate::proofs::Dones::some_fits))]
    fn set_last_cell_was_wrapped(&mut self, on: bool, seqno: u64) -> Result<(), Refusal> {
        if self.columns.limit == 0 {
            return Err(Refusal::PastCapacity);
        }
        self.columns.flag_last(on);
        self.seqno = self.seqno.max(seqno);
        Ok(())
    }

    #[tactic(auto, using(rows::proofs::Wholes::shown_append, rows::proofs::Wholes::shown_spread, crate::specs::Laws::whole_of, crate::specs::Laws::span_held))]
    fn append_line<T: Store<Attr = A, Split = P>>(
        &mut self,
        other: &T,
        seqno: u64,
    ) -> Result<(), Refusal> {
        if self.columns.passes(self.columns.len(), other.len()) {
            return Err(Refusal::PastCapacity);
        }
        self.columns.push_cells(other);
        self.seqno = self.seqno.max(seqno);
        Ok(())
    }

    #[tactic(auto, using(crate::specs::Laws::whole_of, crate::proofs::Means::span_drop, crate::proofs::Dones::emptied_cells))]
    fn split_off<R: Fill<Attr = A, Split = P>>(
        &mut self,
        idx: usize,
        second: &mut R,
        seqno: u64,
    ) -> Result<(), Refusal> {
        if self.columns.is_second(idx) {
            return Err(Refusal::PartsWide);
        }
        if second.capacity() < self.columns.len().saturating_sub(idx) {
            return Err(Refusal::TooSmall);
        }
        let _ = second.from_text(b"", &A::blank(), seqno);
        self.columns.hand_on(idx, second);
        self.columns.truncate(idx);
        Ok(())
    }
}
