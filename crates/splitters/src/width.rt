//! How wide a piece is.
#[derive(Clone, Copy, Debug, PartialEq, Eq)]
pub enum Width {
    Narrow = 1,
    Wide = 2,
}
