//! The law of refusals, for every kind of attributes `K`, every splitter, every room and every store's rule.
ghost use Rattle.rows.specs.Choosing.{Chooses};

/// The smallest number that fits is given, and a refusal changes nothing.
pub fn chooses_smallest<K>()
    ensures { Chooses K }
{}
