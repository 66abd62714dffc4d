//! The memory of a run store, whose meaning depends on a splitter: text and runs in memory that is handed over, wide bits in a fixed table.
ghost use Rattle.std.specs.Prelude.{ℕ, ◌+◌, ◌≤◌, List, vec_items, vec_len, vec_capacity};
ghost use Rattle.rows.specs.Lists.{span};
ghost use Rattle.runs.specs.Bits.{bits_of, ones_in};
ghost use Rattle.runs.specs.Dressing.{dress};

use crate::run::Run;

#[derive(Drop)]
pub struct Memory<A> {
    // What may be used stands beside each memory, which may have more room than was meant; a type for the two would repeat the library's vector.
    /// The texts of the cells, joined; at most so many bytes; and where the last cell's text begins.
    pub text: Vec<u8>,
    pub bytes: usize,
    pub last: usize,
    /// How many cells there are.
    pub count: usize,
    /// A bit for each column in which a wide cell starts.
    pub wide: [u64; 64],
    /// The runs of equal attributes, and at most how many.
    pub runs: Vec<Run<A>>,
    pub most: usize,
    pub seqno: u64,
    ghost room: { bytes ≤ vec_capacity text },
    ghost within: { vec_len text ≤ bytes },
    ghost runs_room: { most ≤ vec_capacity runs },
    ghost runs_within: { vec_len runs ≤ most },
    ghost ends: { last ≤ vec_len text },
    ghost counted: { count + ones_in wide ≤ 4096 },
    // At most 4,096 columns, whatever pieces the text falls into: so the law of a store needs no splitter.
    ghost columns: { ((ps : List (List ℕ)) → span (dress (bits_of wide) ps 0 (vec_items runs)) ≤ 4096) },
}
