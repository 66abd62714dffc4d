//! The laws of compaction and of lists of calls, for every kind of attributes `K`, every splitter, every room and every store's rule.
ghost use Rattle.rows.specs.PackingLaws.{Twins, Compacts, Strikes};

/// Compaction gives the first refused cell's refusal.
pub fn gives_first_refused<K>()
    ensures { Compacts K }
{}

/// Compactions and expansions can be struck from a list of calls.
pub fn strikes_packing<K>()
    ensures { Strikes K }
{}

/// Lists of calls that are the same with compactions and expansions struck leave the same and answer the same otherwise.
pub fn twins_agree<K>()
    ensures { Twins K }
{}
