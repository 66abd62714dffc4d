//! The run store: joined text, a bit for each wide cell's column, and runs of cells with equal attributes.
#![tactic(auto)]

pub mod account;
pub mod ascii;
mod bits;
pub mod clusterline;
mod clusters;
mod memory;
pub mod place;
mod reading;
pub mod run;
mod taking;
mod texts;
pub mod utf8line;
