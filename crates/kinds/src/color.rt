//! A colour: the default or a palette number from 0 to 255.
// An enum of its own, and no `Option`: name and cases are those of the ported crate.
#[derive(Clone, Copy, PartialEq, Eq, Debug)]
pub enum SmallColor {
    Default,
    PaletteIndex(u8),
}
