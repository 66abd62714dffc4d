//! The law of shown cells and columns, for every kind of attributes `K` and every room.
ghost use Rattle.rows.specs.Agreeing.{Agrees};

/// Joining, pruning, flagging, resizing and splitting say the same of shown cells and of columns; a split row joined again is the row.
pub fn agrees_on_columns<K>()
    ensures { Agrees K }
{}
