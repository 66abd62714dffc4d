//! What a row means: the definitions that every later contract cites, and the laws about them.
#![tactic(auto)]

pub mod agreeing;
pub mod bounds;
pub mod choosing;
pub mod making;
pub mod packing;
pub mod samples;
pub mod wraplaws;
pub mod zonelaws;
