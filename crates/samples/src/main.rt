//! The worked samples for UTF-8: those of rows are proved, and how long a cell's text may be is run.
#![tactic(auto)]

ghost use Rattle.cells.specs.Kinds.{Kind};
ghost use Rattle.std.specs.Prelude.{◌≡◌, [], ◌∷◌};
ghost use Rattle.rows.specs.Edits.{from_text};
ghost use Rattle.rows.specs.Samples.{Samples, gives};
ghost use Rattle.rows.specs.WrapSamples.{a_wide_b, room};
ghost use Rattle.utf8.specs.Utf8.{utf8_splits};

use cells::attributes::Attributes;
use kinds::strip::StripAttributes;
use splitters::graphemes::new_grapheme;
use std::io;
use utf8::Utf8;

/// For every kind of attributes `K`, with the UTF-8 splitter.
pub fn samples_in_utf8<K>()
    ensures rows { (k : Kind K) → Samples k utf8_splits }
    ensures text { (k : Kind K) → from_text utf8_splits (room 80) (0x61 ∷ 0xe4 ∷ 0xb8 ∷ 0xad ∷ 0x62 ∷ []) k.blank 9 ≡ gives (a_wide_b k) }
{}

/// Says of a text whether it makes a cell.
fn told(rt: &HostRuntime, name: &str, text: &[u8]) -> io::Result<()> {
    match new_grapheme::<Utf8, _>(text, None, StripAttributes::blank()) {
        Ok(cell) => println!(rt;
            "{name}: a cell of {} bytes, {} columns",
            cell.text.len(),
            cell.text.width()
        ),
        Err(why) => println!(rt; "{name}: refused {}", why.number()),
    }
}

fn main(rt: HostRuntime) -> io::Result<()> {
    samples_in_utf8::<StripAttributes>();
    told(&rt, "e and three U+0301", b"e\xcc\x81\xcc\x81\xcc\x81")?;
    told(
        &rt,
        "e and four U+0301",
        b"e\xcc\x81\xcc\x81\xcc\x81\xcc\x81",
    )?;
    told(&rt, "U+4E2D", b"\xe4\xb8\xad")?;
    told(&rt, "U+0085", b"\xc2\x85")?;
    told(&rt, "nothing", b"")?;
    told(&rt, "ab", b"ab")?;
    told(&rt, "E4 B8", b"\xe4\xb8")
}
