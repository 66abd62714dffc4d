//! Columns in memory handed over: a cell in each, at most as many as a limit. Between two steps half of a wide cell may stand alone.
ghost use Rattle.std.specs.Prelude.{◌≤◌, length, vec_capacity};
ghost use Rattle.columns.specs.Cols.{columns};

use cells::cell::Cell;

// The limit stands beside the memory, which may have more room than was meant; a type for the two would repeat the library's vector.
#[derive(Drop)]
pub(crate) struct Columns<A> {
    pub(crate) cells: Vec<Cell<A>>,
    pub(crate) limit: usize,
    ghost room: { limit ≤ vec_capacity cells },
    ghost most: { limit ≤ 4096 },
    ghost within: { length (columns cells.items) ≤ limit },
}
