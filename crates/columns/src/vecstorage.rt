//! The column store: columns, none of them half of a wide cell, and a change number.
ghost use Rattle.rows.specs.Columns.{Whole};
ghost use Rattle.columns.specs.Becoming.{held};

use crate::cols::Columns;
use std::marker::PhantomData;

#[derive(Drop)]
pub struct VecStorage<A, P> {
    pub(crate) columns: Columns<A>,
    pub(crate) seqno: u64,
    pub(crate) splitter: PhantomData<P>,
    ghost whole: { ∥ Whole (held columns) ∥₁ },
}
