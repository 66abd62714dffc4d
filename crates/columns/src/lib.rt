//! The column store: a cell in each column, in memory handed over.
#![tactic(auto)]

mod cols;
pub mod edits;
mod ends;
mod inserts;
mod single;
mod steps;
pub mod stored;
mod texts;
pub mod vecstorage;
mod walk;
