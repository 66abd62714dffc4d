//! The law of rows made by calls, for every kind of attributes `K` and every splitter.
ghost use Rattle.rows.specs.Making.{KeepsTo};

/// A row made by calls keeps to its splitter, so that compaction refuses with 10 or 11 only.
pub fn keeps_to_splitter<K>()
    ensures { KeepsTo K }
{}
