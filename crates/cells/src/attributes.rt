//! An attribute kind: what a cell carries beside its text. docs/ATTRIBUTES.md has the laws.
ghost use Rattle.std.specs.Prelude.{◌≡◌};
ghost use Rattle.cells.specs.Kinds.{Kind};

use crate::semantic::SemanticType;

pub trait Attributes: Copy + Eq {
    /// What its functions answer, and the laws that this keeps.
    ghost kind: { Kind Self };

    fn blank() -> Self
        ensures { result ≡ kind.blank };

    fn wrapped(&self) -> bool
        ensures { result ≡ kind.wrapped self.now };

    fn set_wrapped(&mut self, on: bool)
        ensures { self.new ≡ kind.flagged self.old on };

    fn semantic_type(&self) -> SemanticType
        ensures { result ≡ kind.semantic self.now };

    /// Whether two values are identical is what `==` answers.
    ghost equal: { (a b : Self) → Self.eq a b ≡ kind.same a b };
}
