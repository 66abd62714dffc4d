//! A run: neighbouring cells with equal attributes.
#[derive(Clone, Copy)]
pub struct Run<A> {
    pub cells: usize,
    pub attrs: A,
}
