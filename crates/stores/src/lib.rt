//! Stores and grids: what holds the cells of a row, and the calls that it carries out.
#![tactic(auto)]

pub mod cellat;
pub mod fill;
pub mod givens;
pub mod grid;
pub mod reader;
pub mod store;
