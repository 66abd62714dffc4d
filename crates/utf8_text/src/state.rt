//! Where a reader of UTF-8 stands: which bytes the character that has begun still needs.
//! Behind E0, ED, F0 and F4 the next byte has a narrower range than any other tail.
#[derive(Clone, Copy, PartialEq, Eq)]
pub(crate) enum State {
    Start,
    Tail1,
    Tail2,
    Tail3,
    AfterE0,
    AfterEd,
    AfterF0,
    AfterF4,
}
