//! Why a call is refused; docs/REFUSALS.md says when each is given and what it leaves.
#[derive(Clone, Copy, PartialEq, Eq, Debug)]
pub enum Refusal {
    NotGood = 1,
    NotOnePiece = 2,
    TooLong = 3,
    BadWidth = 4,
    MarginZero = 5,
    PastCapacity = 6,
    PartsWide = 7,
    NoSuchRow = 8,
    TooSmall = 9,
    Fuses = 10,
    Full = 11,
    BadType = 12,
}
