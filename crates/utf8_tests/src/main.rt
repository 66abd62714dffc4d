//! Reads texts as hexadecimal bytes, one to a line, and writes of each whether it is good, and the length and the width of its pieces.
//! A line that begins with # is a heading.
#![tactic(auto)]

ghost use Rattle.std.specs.Prelude.{◌<◌};

use splitters::splitter::Splitter;
use std::alloc::{AllocError, Global};
use std::fmt::Write;
use std::io;
use utf8::Utf8;

// The library's digits take small letters too; here 0 to 9 and A to F are digits, and any other byte counts 0.
fn digit(b: u8) -> u8
    ensures { result < 16 }
{
    match b {
        b'0'..=b'9' => b - b'0',
        b'A'..=b'F' => b - b'A' + 10,
        _ => 0,
    }
}

/// The bytes that pairs of hexadecimal digits stand for.
fn bytes_of(heap: Global, line: &[u8]) -> Result<Vec<u8>, AllocError> {
    line.chunks_exact(2)
        .map(|pair| digit(pair[0]) * 16 + digit(pair[1]))
        .collect(heap)
}

/// The pieces of a text, up to where no character begins.
fn pieces(heap: Global, text: &[u8]) -> Result<String, AllocError> {
    let mut told = String::new(heap);
    let mut rest = text;
    while let Some((piece, behind)) = rest.split_at_checked(Utf8::first_len(rest))
        && !piece.is_empty()
    {
        let n = piece.len();
        let width = Utf8::width_of(piece).columns();
        write!(told, " {n}/{width}")?;
        rest = behind;
    }
    Ok(told)
}

fn told(heap: Global, line: &str) -> Result<String, AllocError> {
    let text = bytes_of(heap, line.as_bytes())?;
    let verdict = if Utf8::is_good(text.as_slice()) {
        "good"
    } else {
        "bad"
    };
    let list = pieces(heap, text.as_slice())?;
    format!(in heap; "{line} {verdict}{list}")
}

fn main(rt: HostRuntime) -> io::Result<()> {
    let heap = rt.alloc();
    for line in rt.lines(heap) {
        let line = line?;
        if line.starts_with('#') {
            rt.println(line.as_str())?;
        } else {
            rt.println(told(heap, line.as_str())?)?;
        }
    }
    Ok(())
}
