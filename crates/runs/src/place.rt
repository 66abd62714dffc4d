//! A reader's place: a byte of the text, a column, a run, and how many of its cells are left.
#[derive(Clone, Copy)]
pub struct Place {
    pub(crate) byte: usize,
    pub(crate) column: usize,
    pub(crate) run: usize,
    pub(crate) left: usize,
}
