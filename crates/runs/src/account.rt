//! What the packed form of cells takes: how many runs, and how many text bytes.
#[derive(Clone, Copy)]
pub struct Account {
    pub runs: usize,
    pub bytes: usize,
}
