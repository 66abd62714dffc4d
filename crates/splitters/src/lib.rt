//! Splitters: which texts are good, and how they fall into pieces.
#![tactic(auto)]

pub mod ascii;
pub mod columns;
pub mod ends;
pub mod graphemes;
pub mod piece;
pub mod pieces;
pub mod splitter;
pub mod width;
