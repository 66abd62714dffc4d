//! The panel's whole work: a text in UTF-8, put line by line on a row of 4,096 columns of the colour kind.
#![tactic(auto)]

ghost use Rattle.std.specs.Prelude.{◌≡◌, map, IfOk};
ghost use Rattle.boards.specs.Boards.{come_to};
ghost use Rattle.columns.specs.Cols.{room_of};
ghost use Rattle.gauge.specs.Accounts.{account_of};
ghost use Rattle.gauge.specs.Lines.{lines_of};
ghost use Rattle.kinds.specs.Colors.{color_blank};
ghost use Rattle.utf8.specs.Utf8.{utf8_splits};

use cells::attributes::Attributes;
use columns::vecstorage::VecStorage;
use gauge::account::Account;
use kinds::cellattributes::CellAttributes;
use reports::panels::report;
use runs::clusterline::ClusteredLine;
use runs::utf8line::Utf8ClusteredLine;
use std::alloc::Global;
use utf8::Utf8;

/// Reports each line of a text, put on a row of 4,096 columns, and then the account, which it answers.
pub fn report_text(rt: &impl Print, heap: Global, text: &[u8]) -> anyhow::Result<Account>
    ensures { IfOk result (λ a. a ≡ account_of (map (come_to utf8_splits (room_of 4096) color_blank) (lines_of text.now))) }
{
    let cells = Vec::with_capacity(heap, 4096)?;
    let mut row: VecStorage<CellAttributes, Utf8> = VecStorage::new(cells, 4096, 0);
    let mut packed: Utf8ClusteredLine<CellAttributes> = ClusteredLine::new(
        Vec::with_capacity(heap, 4096)?,
        4096,
        Vec::with_capacity(heap, 28_672)?,
        28_672,
        0,
    );
    let account = report(
        rt,
        heap,
        &mut row,
        &mut packed,
        &CellAttributes::blank(),
        text,
    )?;
    Ok(account)
}
