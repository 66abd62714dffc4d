//! Blanks, and the two ways in which cells agree.
ghost use Rattle.std.specs.Prelude.{◌≡◌, Decides};
ghost use Rattle.cells.specs.Cells.{meaning, blank_with, plain_blank, is_plain, equal, alike, Equal};

use crate::attributes::Attributes;
use crate::cell::Cell;
use crate::teenystring::TeenyString;

impl<A: Copy> Cell<A> {
    /// A space with the attributes given.
    pub fn blank_with_attrs(attrs: A) -> Cell<A>
        ensures { meaning result ≡ blank_with attrs }
    {
        Cell {
            text: TeenyString::space(),
            attrs,
        }
    }
}

impl<A: Attributes> Cell<A> {
    /// The plain blank.
    pub fn blank() -> Cell<A>
        ensures { meaning result ≡ plain_blank A.Attributes.kind }
    {
        Cell::blank_with_attrs(A::blank())
    }

    pub fn is_plain_blank(&self) -> bool
        ensures { result ≡ is_plain A.Attributes.kind (meaning self.now) }
    {
        self.text.same_text(&TeenyString::space()) && self.attrs == A::blank()
    }

    // Not `==`, which counts the width too.
    /// Whether text and attributes agree; the width does not count.
    #[tactic(auto, using(crate::proofs::Agreeing::text_exact))]
    pub fn equal(&self, other: &Cell<A>) -> bool
        ensures value { result ≡ equal A.Attributes.kind (meaning self.now) (meaning other.now) }
        ensures exact { Decides result (Equal (meaning self.now) (meaning other.now)) }
    {
        self.text.same_text(&other.text) && self.attrs == other.attrs
    }

    /// Whether text, width and attributes agree.
    pub fn alike(&self, other: &Cell<A>) -> bool
        ensures value { result ≡ alike A.Attributes.kind (meaning self.now) (meaning other.now) }
        ensures exact { Decides result (meaning self.now ≡ meaning other.now) }
    {
        *self == *other
    }
}
