//! The strip kind's value: a semantic type and the wrapped flag.
use cells::semantic::SemanticType;

#[derive(Clone, Copy, PartialEq, Eq)]
pub struct StripAttributes {
    pub semantic: SemanticType,
    pub wrapped: bool,
}
