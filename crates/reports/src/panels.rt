//! What the panel prints of a text, with any row to put its lines on.
ghost use Rattle.std.specs.Prelude.{◌≡◌, [], map, IfOk};
ghost use Rattle.gauge.specs.Accounts.{account_of};
ghost use Rattle.gauge.specs.Lines.{lines_of};
ghost use Rattle.rows.specs.Packing.{compaction};
ghost use Rattle.rows.specs.Rows.{unless};
ghost use Rattle.runs.specs.Sounds.{held_of, rule_of};
ghost use Rattle.boards.specs.Boards.{come_to};

use crate::reports::{AccountReport, LineReport, PackingReport, RowReport};
use boards::boarding::{board_width, put_line};
use boards::packing::pack;
use boards::texts::board_text;
use cells::attributes::Attributes;
use gauge::account::Account;
use gauge::lines::Lines;
use runs::clusterline::ClusteredLine;
use splitters::splitter::Splitter;
use std::alloc::Global;
use std::io;
use stores::fill::Fill;
use stores::grid::Grid;
use stores::store::Store;

// What prints and what gives memory are two handles, as the library hands them out, and go side by side.

/// Prints a row as a display shows it, with its change number.
fn show_row<S: Store>(rt: &impl Print, heap: Global, row: &S) -> io::Result<()> {
    let text = board_text(heap, row, board_width(row.len()))?;
    rt.println(RowReport {
        number: row.current_seqno(),
        text: str::from_utf8(text.as_slice()).unwrap_or("(not UTF-8)"),
    })
}

/// Puts a row into a run store and prints what its packed form takes, or what refuses it.
pub fn show_packing<S: Store>(
    rt: &impl Print,
    row: &S,
    packed: &mut ClusteredLine<S::Attr, S::Split>,
) -> io::Result<()>
    ensures { (held_of S.Split.splits packed.new).cells
        ≡ unless (compaction S.Split.splits (rule_of S.Attr.Attributes.kind S.Split.splits (held_of S.Split.splits packed.old).sizes) (S.Store.row row.now).cells)
        [] (S.Store.row row.now).cells }
{
    let outcome = pack(row, packed).map(|()| packed.account());
    rt.println(PackingReport(&outcome))
}

/// Puts each line of a text on a row, prints what it comes to, how it shows and what it takes packed, and then the account, which it answers.
/// Line n is set at change number 2n - 1 and pruned at 2n.
pub fn report<G: Grid>(
    rt: &impl Print,
    heap: Global,
    row: &mut G,
    packed: &mut ClusteredLine<G::Attr, G::Split>,
    attrs: &G::Attr,
    text: &[u8],
) -> io::Result<Account>
    ensures { IfOk result (λ a. a ≡ account_of (map (come_to G.Split.splits (G.Fill.room (G.Store.row row.old).sizes) attrs.now) (lines_of text.now))) }
{
    let mut account = Account::new();
    // A change number is no index: it goes on by two for each line, and stops at the largest number.
    let mut seqno: u64 = 0;
    for line in Lines::new(text) {
        let set = seqno.saturating_add(1);
        seqno = set.saturating_add(1);
        let outcome = put_line(row, line, attrs, set, seqno);
        account.add(&outcome);
        rt.println(LineReport {
            number: account.lines,
            outcome: &outcome,
        })?;
        if outcome.is_ok() {
            show_row(rt, heap, row)?;
            show_packing(rt, row, packed)?;
        }
    }
    rt.println(AccountReport(&account))?;
    Ok(account)
}
