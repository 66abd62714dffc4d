//! The place of a reader behind a cell, and the cells of the run there.
ghost use Rattle.std.specs.Prelude.{◌≡◌, ◌+◌, ◌<◌, ◌≤◌, drop, if◌then◌else◌, vec_len, nat_lt};
ghost use Rattle.runs.specs.Runs.{begun, past};

use crate::place::Place;
use crate::run::Run;
use cells::attributes::Attributes;

/// How many cells the run at a place has; none past the last.
pub(crate) fn cells_at<A: Attributes>(runs: &Vec<Run<A>>, i: usize) -> usize
    ensures { begun result (drop i runs.now.items) ≡ drop i runs.now.items }
{
    runs.get(i).map_or(0, |r| r.cells)
}

/// The column behind a cell; past the table of wide bits no column differs from another.
fn column_behind(x: usize, width: usize) -> usize
    requires { width ≤ 2 }
    ensures { result ≡ (if nat_lt x 4096 then x + width else x) }
{
    if x < 4096 { x + width } else { x }
}

/// The place behind the cell at a place.
#[tactic(auto, using(crate::proofs::Placing::past_leaves))]
pub(crate) fn onward<A: Attributes>(
    runs: &Vec<Run<A>>,
    at: Place,
    end: usize,
    width: usize,
) -> Place
    requires run { at.run < vec_len runs.now }
    requires width { width ≤ 2 }
    ensures byte { result.byte ≡ end }
    ensures column { result.column ≡ (if nat_lt at.column 4096 then at.column + width else at.column) }
    ensures runs { begun result.left (drop result.run runs.now.items) ≡ past (begun at.left (drop at.run runs.now.items)) }
{
    let column = column_behind(at.column, width);
    if at.left > 1 {
        return Place {
            byte: end,
            column,
            left: at.left - 1,
            ..at
        };
    }
    let run = at.run + 1;
    Place {
        byte: end,
        column,
        run,
        left: cells_at(runs, run),
    }
}
