//! The laws of columns and capacity, for every kind of attributes `K`, every splitter and every room.
ghost use Rattle.rows.specs.Bounds.{KeepsWhole, KeepsWithin, ReadingBack};

/// Columns and shown cells say the same.
pub fn reads_back<K>()
    ensures { ReadingBack K }
{}

/// Every edit keeps columns whole.
pub fn keeps_whole<K>()
    ensures { KeepsWhole K }
{}

/// Every call, and so every list of calls, keeps a row within its capacity.
pub fn keeps_within<K>()
    ensures { KeepsWithin K }
{}
