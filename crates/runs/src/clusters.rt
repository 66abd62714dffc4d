//! Steps on runs: one more cell behind them, and one fewer.
ghost use Rattle.std.specs.Prelude.{◌≡◌, ◌+◌, ◌≤◌, length, if◌then◌else◌, vec_len, vec_capacity, nat_lt};
ghost use Rattle.runs.specs.Runs.{extend, shrink, total};

use crate::run::Run;
use cells::attributes::Attributes;

/// Whether a cell with these attributes begins a run of its own.
fn begins_run<A: Attributes>(runs: &Vec<Run<A>>, attrs: &A) -> bool
    ensures { length (extend A.Attributes.kind runs.now.items attrs.now) ≡ (if result then vec_len runs.now + 1 else vec_len runs.now) }
{
    !runs.last().is_some_and(|r| r.attrs == *attrs)
}

/// Whether one more cell makes more runs than so many.
pub(crate) fn lacks_runs<A: Attributes>(runs: &Vec<Run<A>>, most: usize, attrs: &A) -> bool
    requires { vec_len runs.now ≤ most }
    ensures { result ≡ nat_lt most (length (extend A.Attributes.kind runs.now.items attrs.now)) }
{
    begins_run(runs, attrs) && runs.len() >= most
}

/// Adds a cell behind runs.
#[tactic(auto, using(crate::proofs::Stretching::extend_like, crate::proofs::Stretching::total_part))]
pub(crate) fn push_run<A: Attributes>(runs: &mut Vec<Run<A>>, attrs: &A)
    requires room { length (extend A.Attributes.kind runs.old.items attrs.now) ≤ vec_capacity runs.old }
    requires small { total runs.old.items ≤ 4096 }
    ensures items { runs.new.items ≡ extend A.Attributes.kind runs.old.items attrs.now }
    ensures cap { vec_capacity runs.new ≡ vec_capacity runs.old }
{
    match runs.last_mut() {
        Some(r) if r.attrs == *attrs => r.cells += 1,
        _ => runs.push_reserved(Run {
            cells: 1,
            attrs: *attrs,
        }),
    }
}

/// Takes a cell off the last run, and the run with its last cell.
#[tactic(auto, using(crate::proofs::Stretching::shrink_more))]
pub(crate) fn pop_run<A: Attributes>(runs: &mut Vec<Run<A>>)
    ensures items { runs.new.items ≡ shrink runs.old.items }
    ensures len { vec_len runs.new ≤ vec_len runs.old }
    ensures cap { vec_capacity runs.new ≡ vec_capacity runs.old }
{
    match runs.last_mut() {
        Some(r) if r.cells > 1 => r.cells -= 1,
        _ => {
            runs.pop();
        }
    }
}
