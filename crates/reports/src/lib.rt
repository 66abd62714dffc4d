//! What the panel says of lines of text.
#![tactic(auto)]

pub mod help;
pub mod panels;
pub mod reports;
