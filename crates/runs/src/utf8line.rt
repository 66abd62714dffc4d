//! The run store whose splitter is that of UTF-8.
use crate::clusterline::ClusteredLine;
use utf8::Utf8;

/// The run store of UTF-8 cells.
pub type Utf8ClusteredLine<A> = ClusteredLine<A, Utf8>;
