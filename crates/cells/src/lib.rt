//! Cells of a row: the text word, what an attribute kind is, and the refusals of every call.
#![tactic(auto)]

pub mod attributes;
pub mod cell;
mod cells;
pub mod cleaning;
mod numbers;
pub mod refusal;
pub mod semantic;
mod sentences;
pub mod teenystring;
mod types;
