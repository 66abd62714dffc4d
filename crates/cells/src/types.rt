//! Semantic types and their numbers.
ghost use Rattle.std.specs.Prelude.{◌≡◌};
ghost use Rattle.cells.specs.Kinds.{type_number, typed};

use crate::refusal::Refusal;
use crate::semantic::SemanticType;

impl SemanticType {
    pub fn number(&self) -> u8
        ensures { result ≡ type_number self.now }
    {
        *self as u8
    }
}

/// The type of a number; 12 where there is none.
impl TryFrom<u8> for SemanticType {
    type Error = Refusal;

    ghost try_from_gives = { λ number made. made ≡ typed number };

    fn try_from(number: u8) -> Result<SemanticType, Refusal> {
        match number {
            0 => Ok(SemanticType::Output),
            1 => Ok(SemanticType::Input),
            2 => Ok(SemanticType::Prompt),
            _ => Err(Refusal::BadType),
        }
    }
}
