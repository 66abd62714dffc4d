//! The laws of wrapping, each the contract of a function, for any attributes `K`.
ghost use Rattle.rows.specs.WrapLaws.{Trimming, Rejoins, GreedyRows, Alone, Answers};

/// What is left out at the end of cells.
pub fn trimming<K>()
    ensures { Trimming K }
{}

/// Wrapped rows join back, and each fits or is one cell, by any proper cut.
pub fn rejoins<K>()
    ensures { Rejoins K }
{}

/// The greedy cut makes the fewest rows, and a new row begins exactly when the next cell would pass the width.
pub fn fewest<K>()
    ensures { GreedyRows K }
{}

/// Spaces alone come back as they are.
pub fn spaces_alone<K>()
    ensures { Alone K }
{}

/// What `wrap` is refused by, and the number of the second row.
pub fn wrap_answers<K>()
    ensures { Answers K }
{}
