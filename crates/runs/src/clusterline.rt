//! The run store of any splitter: memory that holds the cells which it shows.
ghost use Rattle.std.specs.Prelude.{◌≡◌, min, [], ◌∷◌, Ok, vec_capacity};
ghost use Rattle.std.proofs.Common.{rules, arith};
ghost use Rattle.cells.specs.Cells.{meaning};
ghost use Rattle.rows.specs.Packing.{bytes_needed, runs_needed, emptied, drop_last, take_cell};
ghost use Rattle.stores.specs.Stores.{Does};
ghost use Rattle.runs.specs.Sounds.{cells, held_of, left_at, Packed, rule_of, Sound};
ghost use Rattle.runs.specs.Laws.{sound_sized};

use crate::account::Account;
use crate::bits::{bit, mark, no_bits, wide_columns, width_by};
use crate::clusters::{pop_run, push_run};
use crate::memory::Memory;
use crate::place::Place;
use crate::reading::{cells_at, onward};
use crate::run::Run;
use crate::texts::last_start;
use cells::attributes::Attributes;
use cells::cell::Cell;
use cells::refusal::Refusal;
use cells::teenystring::TeenyString;
use splitters::ends::piece_end;
use splitters::splitter::Splitter;
use std::marker::{Model, PhantomData};
use stores::store::Store;

/// Memory that holds the cells which it shows by its splitter.
#[derive(Drop)]
pub struct ClusteredLine<A, P: Splitter> {
    pub(crate) held: Memory<A>,
    splitter: PhantomData<P>,
}

impl<A, P: Splitter> Model for ClusteredLine<A, P> {
    ghost use Rattle.runs.specs.declared.memory.Memory.{Memory};
    ghost use Rattle.runs.specs.Sounds.{Sound};

    ghost Value = { Memory A };

    ghost view = { λ s. s.held };

    ghost invariant = { λ s. Sound P.Splitter.splits s.held };
}

impl<A: Attributes, P: Splitter> ClusteredLine<A, P> {
    /// An empty store in the memory handed over: of the runs and text bytes meant, as far as the memory has room.
    pub fn new(
        mut runs: Vec<Run<A>>,
        most: usize,
        mut text: Vec<u8>,
        bytes: usize,
        seqno: u64,
    ) -> ClusteredLine<A, P>
        ensures row { cells P.Splitter.splits result ≡ [] }
        ensures change { result.seqno ≡ seqno }
        ensures room { (held_of P.Splitter.splits result).sizes ≡ min most (vec_capacity runs) ∷ (min bytes (vec_capacity text) ∷ []) }
        ensures sound { Sound P.Splitter.splits result }
    {
        runs.clear();
        text.clear();
        let most = most.min(runs.capacity());
        let bytes = bytes.min(text.capacity());
        ClusteredLine {
            held: Memory {
                text,
                bytes,
                last: 0,
                count: 0,
                wide: no_bits(),
                runs,
                most,
                seqno,
            },
            splitter: PhantomData,
        }
    }

    /// The runs and text bytes that its cells take. Its contract says besides how the memory is laid out, and that it is sound.
    pub fn account(&self) -> Account
        ensures runs { result.runs ≡ runs_needed A.Attributes.kind (cells P.Splitter.splits self.now) }
        ensures bytes { result.bytes ≡ bytes_needed (cells P.Splitter.splits self.now) }
        ensures packed { Packed A.Attributes.kind P.Splitter.splits self.now }
        ensures sound { Sound P.Splitter.splits self.now }
    {
        Account {
            runs: self.held.runs.len(),
            bytes: self.held.text.len(),
        }
    }
}

impl<A: Attributes, P: Splitter> Store for ClusteredLine<A, P> {
    type Attr = A;

    type Split = P;

    type Place = Place;

    ghost number = { λ s. s.seqno };

    ghost row = { held_of P.Splitter.splits };

    ghost rule = { rule_of A.Attributes.kind P.Splitter.splits };

    ghost left = { left_at P.Splitter.splits };

    ghost within = { Prim.search rules };

    ghost sized = { sound_sized P.Splitter.splits };

    ghost packer = { Prim.search rules };

    fn len(&self) -> usize {
        self.held.count + wide_columns(&self.held.wide)
    }

    fn current_seqno(&self) -> u64 {
        self.held.seqno
    }

    fn start(&self) -> Place {
        Place {
            byte: 0,
            column: 0,
            run: 0,
            left: cells_at(&self.held.runs, 0),
        }
    }

    fn next_cell(&self, at: Place) -> Option<(Cell<A>, Place)> {
        let s = &self.held;
        if at.byte >= s.text.len() {
            return None;
        }
        let attrs = s.runs.get(at.run)?.attrs;
        let end = piece_end::<P>(&s.text, at.byte);
        let width = width_by(bit(&s.wide, at.column));
        let text = TeenyString::new(&s.text[at.byte..end], width).ok()?;
        Some((Cell { text, attrs }, onward(&s.runs, at, end, width)))
    }

    // The trait's clause, and that the store stays sound: who sees the calls of this store need not ask its account.
    fn clear(&mut self)
        ensures does { Does (held_of P.Splitter.splits) (λ s. s.seqno) emptied self.old (Ok tt) self.new }
        ensures sound { Sound P.Splitter.splits self.new }
    {
        let s = &mut self.held;
        s.last = 0;
        s.count = 0;
        s.wide = no_bits();
        s.text.clear();
        s.runs.clear();
    }

    fn drop_last(&mut self)
        ensures does { Does (held_of P.Splitter.splits) (λ s. s.seqno) drop_last self.old (Ok tt) self.new }
        ensures sound { Sound P.Splitter.splits self.new }
    {
        if self.held.count == 0 {
            return;
        }
        let cols = self.len();
        let s = &mut self.held;
        let on = bit(&s.wide, cols.saturating_sub(2));
        let x = cols - width_by(on);
        let end = s.last;
        mark(&mut s.wide, x, false);
        pop_run(&mut s.runs);
        s.text.truncate(end);
        s.last = last_start::<P>(s.text.as_slice());
        s.count -= 1;
    }

    fn take(&mut self, c: &Cell<A>) -> Result<(), Refusal>
        ensures does { Does (held_of P.Splitter.splits) (λ s. s.seqno)
            (take_cell P.Splitter.splits (rule_of A.Attributes.kind P.Splitter.splits (held_of P.Splitter.splits self.old).sizes) (meaning c.now))
            self.old result self.new }
        ensures sound { Sound P.Splitter.splits self.new }
    {
        self.check_take(c)?;
        let mut buffer = [0; 7];
        let text = c.text.read(&mut buffer);
        let x = self.len();
        let s = &mut self.held;
        let end = s.text.len();
        // It has room for so many bytes.
        let _ = s.text.extend_from_slice(text);
        push_run(&mut s.runs, &c.attrs);
        mark(&mut s.wide, x, c.text.width() == 2);
        s.last = end;
        s.count += 1;
        Ok(())
    }
}
