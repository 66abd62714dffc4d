//! Lines of text gauged as cells against the displays, and an account of them.
#![tactic(auto)]

pub mod account;
pub mod accounts;
pub mod lines;
pub mod measure;
pub mod measuring;
