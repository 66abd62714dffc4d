//! Text in UTF-8: which bytes are good text, its code points, its first piece, and wide code points.
#![tactic(auto)]

mod kinds;
pub mod piece;
mod point;
mod state;
pub mod validator;
pub mod wide;
