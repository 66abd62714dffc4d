//! The strip kind: only a semantic type and the wrapped flag.
ghost use Rattle.std.proofs.Common.{rules};
ghost use Rattle.std.specs.Prelude.{◌≡◌};
ghost use Rattle.cells.specs.Kinds.{typed};
ghost use Rattle.cells.specs.Refusals.{mapped};
ghost use Rattle.kinds.specs.Strips.{strip, strip_kind};

use crate::strip::StripAttributes;
use cells::attributes::Attributes;
use cells::refusal::Refusal;
use cells::semantic::SemanticType;

impl StripAttributes {
    // A number, and no `SemanticType`: callers may give any, and 12 is for the wrong ones.
    /// By the number of a type; 12 where there is no such type.
    pub fn new(number: u8, wrapped: bool) -> Result<StripAttributes, Refusal>
        ensures { result ≡ mapped (λ t. strip t wrapped) (typed number) }
    {
        let semantic = SemanticType::try_from(number)?;
        Ok(StripAttributes { semantic, wrapped })
    }
}

impl Attributes for StripAttributes {
    ghost kind = { strip_kind };

    ghost equal = { Prim.search rules };

    fn blank() -> StripAttributes {
        StripAttributes {
            semantic: SemanticType::Output,
            wrapped: false,
        }
    }

    fn wrapped(&self) -> bool {
        self.wrapped
    }

    fn set_wrapped(&mut self, on: bool) {
        self.wrapped = on;
    }

    fn semantic_type(&self) -> SemanticType {
        self.semantic
    }
}
