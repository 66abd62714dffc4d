//! What a line of text comes to as cells.
#[derive(Clone, Copy, Debug, PartialEq, Eq)]
pub struct Measure {
    pub columns: u128,
    pub cells: usize,
    /// How many controls became blanks.
    pub controls: usize,
}
