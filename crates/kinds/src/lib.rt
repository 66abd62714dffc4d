//! The two attribute kinds: the colour kind and the strip kind.
#![tactic(auto)]

pub mod cellattributes;
pub mod color;
pub mod colorkind;
pub mod strip;
pub mod stripkind;
