//! Lines of text as rows on a board.
#![tactic(auto)]

pub mod boarding;
pub mod packing;
pub mod texts;
