//! The reader's state: what is left of a text, and where that begins in it.
ghost use Rattle.std.specs.Prelude.{◌≡◌, ◌+◌, ◌^◌, ◌<◌, ⊤, length};

use std::alloc::AllocError;
use std::marker::PhantomData;

// The place stands beside what is left, since each piece says where it stands in the text.
pub struct Pieces<'a, P> {
    rest: &'a [u8],
    at: usize,
    splitter: PhantomData<P>,
    ghost fits: { at + length rest.now < 2 ^ 64 },
}

// By hand: beside the ghost field it cannot be derived.
/// A copy reads on by itself, and nobody tests the text again for it.
impl<'a, P> Clone for Pieces<'a, P> {
    ghost is_clone = { λ x y. y ≡ x };

    ghost is_infallible = { λ _. ⊤ };

    fn clone(&self) -> Result<Self, AllocError> {
        Ok(*self)
    }
}

impl<'a, P> Copy for Pieces<'a, P> {}

pub mod reader;
