//! A reader of a store's cells: an iterator over them.
ghost use Rattle.std.specs.Prelude.{◌≡◌};
ghost use Rattle.std.specs.Iterator.{YieldsFirstBy, item_count};
ghost use Rattle.cells.specs.Cells.{meaning};

use crate::store::Store;
use cells::cell::Cell;

#[derive(Drop)]
pub struct Reader<'a, S: Store> {
    store: &'a S,
    place: S::Place,
}

impl<'a, S: Store> Reader<'a, S> {
    /// A reader that has all the cells of a store to give.
    pub fn new(store: &'a S) -> Reader<'a, S>
        ensures { S.Store.left result.store.now result.place ≡ (S.Store.row store.now).cells }
    {
        let place = store.start();
        Reader { store, place }
    }
}

impl<'a, S: Store> Iterator for Reader<'a, S> {
    type Item = Cell<S::Attr>;

    ghost next_gives = { λ r given t. YieldsFirstBy meaning (λ r. S.Store.left r.store.now r.place) r given t × (t.store.now ≡ r.store.now) };

    ghost remaining = { item_count (λ r. S.Store.left r.store.now r.place) };

    /// The next cell, or none where all are read.
    fn next(&mut self) -> Option<Cell<S::Attr>> {
        let (c, place) = self.store.next_cell(self.place)?;
        self.place = place;
        Some(c)
    }
}
