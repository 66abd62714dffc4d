//! A cell with the column in which it starts.
use cells::cell::Cell;

#[derive(Clone, Copy)]
pub struct CellAt<A> {
    pub column: usize,
    pub cell: Cell<A>,
}
