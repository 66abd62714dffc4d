//! The run store whose splitter is that of ASCII.
use crate::clusterline::ClusteredLine;
use splitters::ascii::Ascii;

/// The run store of ASCII cells.
pub type AsciiClusteredLine<A> = ClusteredLine<A, Ascii>;
