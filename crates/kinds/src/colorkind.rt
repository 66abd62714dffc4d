//! The colour kind: a 32-bit number and two colours.
ghost use Rattle.std.proofs.Common.{rules};
ghost use Rattle.std.specs.Prelude.{◌≡◌};
ghost use Rattle.kinds.specs.Colors.{color_kind, painted};
ghost use Rattle.cells.specs.Kinds.{typed};
ghost use Rattle.cells.specs.Refusals.{mapped};
ghost use Rattle.kinds.specs.Bitfields.{type_bits};

use crate::cellattributes::CellAttributes;
use crate::color::SmallColor;
use cells::attributes::Attributes;
use cells::refusal::Refusal;
use cells::semantic::SemanticType;

const WRAPPED: u32 = 0x0000_0800;

/// The type in the bits of the number; 12 where it is 3.
fn type_of(attributes: u32) -> Result<SemanticType, Refusal>
    ensures { result ≡ typed (type_bits attributes) }
{
    SemanticType::try_from(((attributes >> 13) & 3) as u8)
}

impl CellAttributes {
    /// From the number with its flag and type; 12 where the type is 3.
    pub fn new(
        attributes: u32,
        foreground: SmallColor,
        background: SmallColor,
    ) -> Result<CellAttributes, Refusal>
        ensures { mapped (λ a. (a.attributes, a.foreground, a.background)) result ≡ painted attributes foreground background }
    {
        type_of(attributes)?;
        Ok(CellAttributes {
            attributes,
            foreground,
            background,
        })
    }
}

impl Attributes for CellAttributes {
    ghost kind = { color_kind };

    ghost equal = { Prim.search rules };

    fn blank() -> CellAttributes {
        CellAttributes {
            attributes: 0,
            foreground: SmallColor::Default,
            background: SmallColor::Default,
        }
    }

    #[tactic(auto, using(crate::proofs::Fields::flag_and))]
    fn wrapped(&self) -> bool {
        self.attributes & WRAPPED != 0
    }

    #[tactic(auto, using(crate::proofs::Fields::flag_set, crate::proofs::Fields::flag_cleared, crate::specs::Colors::by_parts))]
    fn set_wrapped(&mut self, on: bool) {
        if on {
            self.attributes |= WRAPPED;
        } else {
            self.attributes &= !WRAPPED;
        }
    }

    fn semantic_type(&self) -> SemanticType {
        type_of(self.attributes).unwrap()
    }
}
