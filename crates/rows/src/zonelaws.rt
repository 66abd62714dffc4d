//! The laws of zones, of row equality and of the texts of columns, each the contract of a function, for any attributes `K`.
ghost use Rattle.rows.specs.ZoneLaws.{Zoned};
ghost use Rattle.rows.specs.QuestionLaws.{Equivalence, Exact, Places, Written};

/// Zones are in order and disjoint, each of one type, neighbours of unlike types, and cover exactly the cells that are kept.
pub fn zoned<K>()
    ensures { Zoned K }
{}

/// Equality of rows is an equivalence.
pub fn equivalence<K>()
    ensures { Equivalence K }
{}

/// Rows are equal exactly where number, length and each column agree.
pub fn equality_is_exact<K>()
    ensures { Exact K }
{}

/// A cell's column is the number of columns before it, and an empty range has no text.
pub fn places<K>()
    ensures { Places K }
{}

/// Memory that suffices gets what is written; memory that does not stays as it was.
pub fn written<X>()
    ensures { Written X }
{}
