//! The columns that a width takes.
ghost use Rattle.std.specs.Prelude.{◌≡◌};
ghost use Rattle.splitters.specs.Splits.{columns};

use crate::width::Width;

impl Width {
    pub fn columns(&self) -> usize
        ensures { result ≡ columns self.now }
    {
        *self as usize
    }
}
