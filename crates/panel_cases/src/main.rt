//! The panel's work on texts that one stored run cannot show: no input, no final line feed, nothing but line feeds; its help; and rows
//! that no text makes, packed.
#![tactic(auto)]

use cells::attributes::Attributes;
use columns::vecstorage::VecStorage;
use kinds::cellattributes::CellAttributes;
use panels::report_text;
use reports::help::HELP;
use reports::panels::show_packing;
use runs::clusterline::ClusteredLine;
use runs::utf8line::Utf8ClusteredLine;
use splitters::graphemes::new_grapheme;
use stores::store::Store;
use utf8::Utf8;

fn case(rt: &HostRuntime, name: &str, text: &[u8]) -> anyhow::Result<()> {
    println!(rt; "== {name}")?;
    report_text(rt, rt.alloc(), text)?;
    Ok(())
}

/// Packs a row of two cells into a run store with room for one run and so many bytes.
fn packed(rt: &HostRuntime, name: &str, texts: [&[u8]; 2], bytes: usize) -> anyhow::Result<()> {
    println!(rt; "== {name}")?;
    let heap = rt.alloc();
    let mut row: VecStorage<CellAttributes, Utf8> = VecStorage::new(
        Vec::with_capacity(heap, 2)?,
        2,
        0,
    );
    for text in texts {
        row.take(&new_grapheme::<Utf8, CellAttributes>(text, None, CellAttributes::blank())?)?;
    }
    let mut store: Utf8ClusteredLine<CellAttributes> = ClusteredLine::new(
        Vec::with_capacity(heap, 1)?,
        1,
        Vec::with_capacity(heap, bytes)?,
        bytes,
        0,
    );
    show_packing(rt, &row, &mut store)?;
    Ok(())
}

fn run(rt: &HostRuntime) -> anyhow::Result<()> {
    println!(rt; "== help")?;
    rt.println(HELP)?;
    case(rt, "no input", b"")?;
    case(rt, "one line feed", b"\n")?;
    case(rt, "no final line feed", b"K1 green\nK2 red")?;
    case(rt, "a final line feed", b"K1 green\nK2 red\n")?;
    packed(rt, "e and U+0301 in two cells", [b"e", b"\xcc\x81"], 7)?;
    packed(
        rt,
        "a and b in two cells, and memory for one byte",
        [b"a", b"b"],
        1,
    )?;
    packed(
        rt,
        "a and b in two cells, and memory for two",
        [b"a", b"b"],
        2,
    )
}

fn main(rt: HostRuntime) -> anyhow::Result<()> {
    run(&rt)
}
