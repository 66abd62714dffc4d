//! Every call of the column store at every column of every row of up to four columns; a line for each row and call.
//! Cells: a and x narrow, W wide, _ a plain blank, c a coloured blank; ! behind a cell is its wrapped flag.
//! Each outcome: the refusal's number or ok, the row after the call, its change number, and a second row's if there is one.
#![tactic(auto)]

use cells::attributes::Attributes;
use cells::cell::Cell;
use cells::refusal::Refusal;
use cells::teenystring::TeenyString;
use columns::vecstorage::VecStorage;
use kinds::cellattributes::CellAttributes;
use kinds::color::SmallColor;
use std::alloc::{AllocError, Global};
use std::fmt;
use std::iter::successors;
use stores::fill::Fill;
use stores::grid::Grid;
use stores::reader::Reader;
use stores::store::Store;
use utf8::Utf8;

type Row = VecStorage<CellAttributes, Utf8>;

const W: &[u8] = b"\xe4\xb8\xad";

fn coloured() -> CellAttributes {
    CellAttributes::new(0, SmallColor::PaletteIndex(1), SmallColor::Default).unwrap_or(
        CellAttributes::blank(),
    )
}

fn word(text: &[u8], width: usize) -> TeenyString {
    TeenyString::new(text, width).unwrap_or(TeenyString::space())
}

/// The cell of a letter.
fn cell(letter: u8) -> Cell<CellAttributes> {
    let attrs = if letter == b'c' {
        coloured()
    } else {
        CellAttributes::blank()
    };
    let text = match letter {
        b'W' => word(W, 2),
        b'_' | b'c' => TeenyString::space(),
        _ => word(&[letter], 1),
    };
    Cell { text, attrs }
}

/// The letter of a cell.
fn letter(c: &Cell<CellAttributes>) -> char {
    if c.text == TeenyString::space() {
        return match c.attrs.foreground {
            SmallColor::Default => '_',
            SmallColor::PaletteIndex(_) => 'c',
        };
    }
    match c.text.byte(0) {
        Some(b) if b < 0x80 => b as char,
        _ => 'W',
    }
}

/// A row by the letters of its cells, and its change number.
#[derive(Drop)]
struct Shown<'a>(&'a Row);

impl fmt::Display for Shown<'_> {
    fn fmt<W: fmt::Write>(&self, f: &mut fmt::Formatter<W>) -> fmt::Result {
        for c in Reader::new(self.0) {
            f.write_char(letter(&c))?;
            if c.attrs.wrapped() {
                f.write_char('!')?;
            }
        }
        write!(f, "/{}", self.0.current_seqno())
    }
}

/// Gives a row these cells and the number 1.
fn build(row: &mut Row, cells: &[u8]) {
    let _ = row.from_text(b"", &CellAttributes::blank(), 1);
    for b in cells {
        let _ = row.take(&cell(*b));
    }
}

/// A row that is built of the same cells for each call, and what the calls came to, as text.
#[derive(Drop)]
struct Trial<'a> {
    out: String,
    row: Row,
    cells: &'a [u8],
}

impl Trial<'_> {
    /// Builds the row and calls; writes what the call answers, and the row after it.
    fn tell<F: FnOnce(&mut Row) -> Result<(), Refusal>>(
        &mut self,
        call: F,
    ) -> Result<(), AllocError>
        requires { F.IsAlwaysCallable call }
    {
        build(&mut self.row, self.cells);
        match call(&mut self.row) {
            Ok(()) => self.out.push_str(" ok:")?,
            Err(why) => write!(self.out, " {}:", why.number())?,
        }
        write!(self.out, "{}", Shown(&self.row))
    }

    /// The same for each number from 0 on, below the count.
    fn tell_each<F: Fn(&mut Row, usize) -> Result<(), Refusal>>(
        &mut self,
        count: usize,
        call: F,
    ) -> Result<(), AllocError>
        requires { F.IsAlwaysCallable call }
    {
        for x in 0..count {
            self.tell(|row| call(row, x))?;
        }
        Ok(())
    }

    fn sets_and_inserts(&mut self) -> Result<(), AllocError> {
        for put in b"xW_c" {
            self.out.push_str("\n set")?;
            self.tell_each(7, |row, x| row.set_cell(x, &cell(*put), 5))?;
        }
        for put in b"xW" {
            self.out.push_str("\n insert")?;
            for margin in 0..7 {
                self.tell_each(6, |row, x| row.insert_cell(x, &cell(*put), margin, 5))?;
            }
        }
        Ok(())
    }

    fn erases_removes_and_resizes(&mut self) -> Result<(), AllocError> {
        self.out.push_str("\n erase")?;
        self.tell_each(6, |row, x| {
            row.erase_cell(x, 5);
            Ok(())
        })?;
        self.out.push_str("\n remove")?;
        self.tell_each(6, |row, x| {
            row.remove_cell(x, 5);
            Ok(())
        })?;
        self.out.push_str("\n resize")?;
        self.tell_each(8, |row, width| row.resize(width, 5))
    }

    /// The second row has room for two columns.
    fn splits(&mut self, second: &mut Row) -> Result<(), AllocError> {
        self.out.push_str("\n split")?;
        for idx in 0..6 {
            build(second, b"x");
            self.tell(|row| row.split_off(idx, second, 0))?;
            write!(self.out, "+{}", Shown(second))?;
        }
        Ok(())
    }

    fn ends(&mut self, second: &mut Row) -> Result<(), AllocError> {
        self.out
            .push_str("\n prune, flag on, flag off, append, drop, clear")?;
        self.tell(|row| {
            row.prune_trailing_blanks(5);
            Ok(())
        })?;
        for on in [true, false] {
            self.tell(|row| row.set_last_cell_was_wrapped(on, 5))?;
        }
        build(second, b"W");
        self.tell(|row| row.append_line(second, 5))?;
        self.tell(|row| {
            row.drop_last();
            Ok(())
        })?;
        self.tell(|row| {
            row.clear();
            Ok(())
        })
    }

    fn takes(&mut self) -> Result<(), AllocError> {
        self.out.push_str("\n take")?;
        for b in b"xW_c" {
            self.tell(|row| row.take(&cell(*b)))?;
        }
        for text in [b"ab" as &[u8], b"\xff"] {
            self.tell(|row| row.take(&Cell {
                text: word(text, 1),
                attrs: CellAttributes::blank(),
            }))?;
        }
        Ok(())
    }

    fn texts(&mut self) -> Result<(), AllocError> {
        self.out.push_str("\n text")?;
        for text in [
            b"" as &[u8],
            b"ax",
            b"a\xe4\xb8\xad\t",
            b"aaaaax",
            b"aaaaaax",
            b"\xff",
            b"ae\xcc\x81\xcc\x81\xcc\x81\xcc\x81",
        ] {
            self.tell(|row| row.from_text(text, &coloured(), 0))?;
        }
        Ok(())
    }

    /// All calls on a row of these cells.
    fn all(&mut self, second: &mut Row) -> Result<(), AllocError> {
        build(&mut self.row, self.cells);
        write!(self.out, "{}", Shown(&self.row))?;
        self.sets_and_inserts()?;
        self.erases_removes_and_resizes()?;
        self.splits(second)?;
        self.ends(second)?;
        self.takes()?;
        self.texts()
    }
}

/// The list number `code` of n letters: the number's digits to the base 4, the lowest first.
fn letters(heap: Global, n: usize, code: usize) -> Result<Vec<u8>, AllocError> {
    successors(Some(code), |left| Some(left / 4))
        .take(n)
        .map(|left| b"aW_c"[left % 4])
        .collect(heap)
}

fn columns_of(cells: &[u8]) -> usize {
    cells.iter().fold(
        0,
        |n: usize, b| n.saturating_add(if *b == b'W' { 2 } else { 1 }),
    )
}

fn blank_row(heap: Global, columns: usize) -> Result<Row, AllocError> {
    Ok(VecStorage::new(Vec::with_capacity(heap, columns)?, columns, 1))
}

fn run(rt: &HostRuntime) -> anyhow::Result<()> {
    let heap = rt.alloc();
    let mut second = blank_row(heap, 2)?;
    for (n, count) in [1, 4, 16, 64, 256].into_iter().enumerate() {
        for code in 0..count {
            let cells = letters(heap, n, code)?;
            if columns_of(cells.as_slice()) <= 4 {
                let mut trial = Trial {
                    out: String::new(heap),
                    row: blank_row(heap, 6)?,
                    cells: cells.as_slice(),
                };
                trial.all(&mut second)?;
                rt.println(trial.out.as_str())?;
            }
        }
    }
    Ok(())
}

fn main(rt: HostRuntime) -> anyhow::Result<()> {
    run(&rt)
}
