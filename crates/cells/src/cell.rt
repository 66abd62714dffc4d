//! A cell: a text word and attributes of any kind.
use crate::teenystring::TeenyString;

#[derive(Clone, Copy, PartialEq, Eq)]
pub struct Cell<A> {
    pub text: TeenyString,
    pub attrs: A,
}
