//! The colour kind's value: a number with the flag and the type in its bits, and two colours. docs/ATTRIBUTES.md has the layout.
ghost use Rattle.std.specs.Prelude.{◌<◌};
ghost use Rattle.kinds.specs.Bitfields.{type_bits};

use crate::color::SmallColor;

#[derive(Clone, Copy, PartialEq, Eq)]
pub struct CellAttributes {
    pub attributes: u32,
    pub foreground: SmallColor,
    pub background: SmallColor,
    ghost typed: { type_bits attributes < 3 },
}
