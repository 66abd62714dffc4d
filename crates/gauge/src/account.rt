//! The account of lines: counts, the widest line, and refusals by number.
#[derive(Clone, Copy, Debug, PartialEq, Eq)]
pub struct Account {
    pub lines: u128,
    pub cells: u128,
    pub columns: u128,
    pub widest: u128,
    /// Lines too wide for the door display and for the laptop.
    pub door: u128,
    pub laptop: u128,
    /// How many lines were refused, by the refusal's number less one.
    pub refused: [u128; 12],
}
