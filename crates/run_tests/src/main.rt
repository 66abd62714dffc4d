//! The run store of ASCII cells and that of UTF-8 cells at each of their limits; a line for each trial.
//! A line: splitter and kind, the runs and text bytes handed over, the letters tried, what each came to, the account with columns and
//! number, the cells read back, and the n-th cells with their columns, up to one that is not there.
//! A letter is a cell; < drops the last cell, = empties. Before a * stands how often something comes in a row.
//! Of a row of more than eight cells it is told how often each letter comes, and the last three n-th cells.
#![tactic(auto)]

use cells::attributes::Attributes;
use cells::cell::Cell;
use cells::refusal::Refusal;
use cells::teenystring::TeenyString;
use kinds::cellattributes::CellAttributes;
use kinds::color::SmallColor;
use kinds::strip::StripAttributes;
use runs::clusterline::ClusteredLine;
use splitters::ascii::Ascii;
use splitters::splitter::Splitter;
use std::alloc::AllocError;
use std::fmt;
use std::marker::PhantomData;
use stores::reader::Reader;
use stores::store::Store;
use utf8::Utf8;

/// The letters that are read back.
const LETTERS: &[u8] = b"abABfs_xWVn37eEmMjhkr";

/// The text of a letter's cell, its width, and the number of its attributes.
fn given(letter: u8) -> (&'static [u8], usize, usize) {
    match letter {
        b'A' => (b"a", 1, 1),
        b'B' => (b"b", 1, 1),
        b'f' => (b"a", 1, 2),
        b's' => (b"a", 1, 3),
        b'x' => (b"x", 2, 0),
        b'W' => (b"\xe4\xb8\xad", 2, 0),
        b'V' => (b"\xe4\xb8\xad", 2, 1),
        b'n' => (b"\xe4\xb8\xad", 1, 0),
        b'3' => (b"\xe2\x82\xac", 1, 0),
        b'7' => (b"e\xcc\x81\xcc\x81\xcc\x81", 1, 0),
        b'E' => (b"e\xcc\x81", 1, 0),
        b'm' => (b"\xcc\x81", 1, 0),
        b'M' => (b"\xcc\x81", 1, 1),
        b'j' => (b"\xe2\x80\x8d", 1, 0),
        b'h' => (b"\xe1\x84\x80", 2, 0),
        b'k' => (b"\xe1\x85\xa1", 1, 0),
        b'r' => (b"\xf0\x9f\x87\xa6", 1, 0),
        b'C' => (b"\r", 1, 0),
        b'L' => (b"\n", 1, 0),
        b'1' => (b"\xff", 1, 0),
        b'c' => (b"\xcc\x81\xff", 1, 0),
        b'2' => (b"ab", 1, 0),
        b'd' => (b"\xcc\x81a", 1, 0),
        b'a' => (b"a", 1, 0),
        b'b' => (b"b", 1, 0),
        b'e' => (b"e", 1, 0),
        _ => (b" ", 1, 0),
    }
}

/// Something so many times over.
#[derive(Clone, Copy)]
struct Times<T>(usize, T);

impl<T: fmt::Display> fmt::Display for Times<T> {
    fn fmt<W: fmt::Write>(&self, f: &mut fmt::Formatter<W>) -> fmt::Result {
        if self.0 != 1 {
            write!(f, "{}*", self.0)?;
        }
        write!(f, "{}", self.1)
    }
}

/// What a letter came to.
#[derive(Clone, Copy, PartialEq, Eq)]
enum Outcome {
    Taken,
    Refused(Refusal),
    Dropped,
    Emptied,
}

impl From<Result<(), Refusal>> for Outcome {
    fn from(answer: Result<(), Refusal>) -> Outcome {
        match answer {
            Ok(()) => Outcome::Taken,
            Err(why) => Outcome::Refused(why),
        }
    }
}

impl fmt::Display for Outcome {
    fn fmt<W: fmt::Write>(&self, f: &mut fmt::Formatter<W>) -> fmt::Result {
        match self {
            Outcome::Taken => f.write_str("ok"),
            Outcome::Refused(why) => write!(f, "{}", why.number()),
            Outcome::Dropped => f.write_char('<'),
            Outcome::Emptied => f.write_char('='),
        }
    }
}

/// The attributes that letters number.
#[derive(Clone, Copy)]
struct Palette<'a, A>(&'a [A]);

impl<A: Attributes> Palette<'_, A> {
    /// The cell of a letter; a space where no word has its text.
    fn cell(&self, letter: u8) -> Cell<A> {
        let (text, width, number) = given(letter);
        Cell {
            text: TeenyString::new(text, width).unwrap_or(TeenyString::space()),
            attrs: self.0.get(number).copied().unwrap_or(A::blank()),
        }
    }

    /// The letter of a cell.
    fn letter(&self, c: &Cell<A>) -> char {
        LETTERS
            .iter()
            .find(|b| self.cell(**b) == *c)
            .map_or('?', |b| char::from(*b))
    }
}

/// What a store holds: its account, its columns and its number, and its cells as a reader and as `nth_cell` gives them.
#[derive(Drop)]
struct Shown<'a, A: Attributes, P: Splitter> {
    store: &'a ClusteredLine<A, P>,
    palette: Palette<'a, A>,
}

impl<A: Attributes, P: Splitter> Shown<'_, A, P> {
    /// How many cells a test holds of.
    fn count<F: Fn(&Cell<A>) -> bool>(&self, holds: F) -> usize
        requires { F.IsAlwaysCallable holds }
    {
        Reader::new(self.store).fold(
            0,
            |n: usize, c| n.saturating_add(if holds(&c) { 1 } else { 0 }),
        )
    }

    fn tell_account<W: fmt::Write>(&self, f: &mut fmt::Formatter<W>) -> fmt::Result {
        let used = self.store.account();
        let (runs, bytes) = (used.runs, used.bytes);
        let columns = self.store.len();
        let number = self.store.current_seqno();
        write!(
            f,
            "{runs} runs, {bytes} bytes, {columns} columns, number {number}"
        )
    }

    /// The letters of a row in order.
    fn tell_cells<W: fmt::Write>(&self, f: &mut fmt::Formatter<W>) -> fmt::Result {
        f.write_char(' ')?;
        for c in Reader::new(self.store) {
            f.write_char(self.palette.letter(&c))?;
        }
        Ok(())
    }

    /// How often each letter comes in a row.
    fn tell_counts<W: fmt::Write>(&self, f: &mut fmt::Formatter<W>) -> fmt::Result {
        for b in LETTERS {
            let wanted = self.palette.cell(*b);
            let n = self.count(|c| *c == wanted);
            if n > 0 {
                write!(f, " {}", Times(n, char::from(*b)))?;
            }
        }
        Ok(())
    }

    fn tell_nth<W: fmt::Write>(&self, f: &mut fmt::Formatter<W>, n: usize) -> fmt::Result {
        match self.store.nth_cell(n) {
            Some(found) => {
                let letter = self.palette.letter(&found.cell);
                write!(f, " {}:{letter}", found.column)
            }
            None => f.write_str(" none"),
        }
    }
}

impl<A: Attributes, P: Splitter> fmt::Display for Shown<'_, A, P> {
    fn fmt<W: fmt::Write>(&self, f: &mut fmt::Formatter<W>) -> fmt::Result {
        self.tell_account(f)?;
        f.write_char(';')?;
        let count = self.count(|_| true);
        if count > 8 {
            self.tell_counts(f)?;
        } else {
            self.tell_cells(f)?;
        }
        f.write_char(';')?;
        let first = if count > 8 { count - 3 } else { 0 };
        for n in first..=count {
            self.tell_nth(f, n)?;
        }
        Ok(())
    }
}

/// A store, the attributes that letters number, what was told of it, and the last outcome, with how often it came.
#[derive(Drop)]
struct Trial<'a, A: Attributes, P: Splitter> {
    store: ClusteredLine<A, P>,
    palette: Palette<'a, A>,
    out: String,
    last: Option<Times<Outcome>>,
}

impl<A: Attributes, P: Splitter> Trial<'_, A, P> {
    fn step(&mut self, letter: u8) -> Outcome {
        match letter {
            b'<' => {
                self.store.drop_last();
                Outcome::Dropped
            }
            b'=' => {
                self.store.clear();
                Outcome::Emptied
            }
            _ => self.store.take(&self.palette.cell(letter)).into(),
        }
    }

    /// Tells the last outcome.
    fn tell_last(&mut self) -> Result<(), AllocError> {
        if let Some(last) = self.last {
            write!(self.out, " {last}")?;
        }
        self.last = None;
        Ok(())
    }

    /// One more outcome: counted where it is the last one's like.
    fn note(&mut self, outcome: Outcome) -> Result<(), AllocError> {
        if let Some(Times(n, last)) = self.last
            && last == outcome
        {
            self.last = Some(Times(n.saturating_add(1), last));
            return Ok(());
        }
        self.tell_last()?;
        self.last = Some(Times(1, outcome));
        Ok(())
    }

    /// Tries the letters; tells them, what each came to, and what the store then holds.
    fn tell(&mut self, script: &[Times<&str>]) -> Result<(), AllocError> {
        for part in script {
            write!(self.out, " {part}")?;
        }
        self.out.push(':')?;
        for Times(n, letters) in script {
            for _ in 0..*n {
                for b in letters.as_bytes() {
                    let outcome = self.step(*b);
                    self.note(outcome)?;
                }
            }
        }
        self.tell_last()?;
        let palette = self.palette;
        let store = &self.store;
        write!(self.out, "; {}", Shown { store, palette })
    }
}

/// Trials of stores of one splitter and one kind, told on a runtime.
#[derive(Drop)]
struct Bench<'a, A: Attributes, P: Splitter> {
    rt: &'a HostRuntime,
    name: &'static str,
    /// A wide cell's letter.
    wide: &'static str,
    attrs: [A; 4],
    number: u64,
    splitter: PhantomData<P>,
}

impl<A: Attributes, P: Splitter> Bench<'_, A, P> {
    /// A new store with room for so many runs and text bytes, and a script on it.
    fn tell(&self, most: usize, bytes: usize, script: &[Times<&str>]) -> anyhow::Result<()> {
        let heap = self.rt.alloc();
        let runs = Vec::with_capacity(heap, most)?;
        let text = Vec::with_capacity(heap, bytes)?;
        let palette = Palette(&self.attrs);
        let mut trial = Trial::<A, P> {
            store: ClusteredLine::new(runs, most, text, bytes, self.number),
            palette,
            out: String::new(heap),
            last: None,
        };
        write!(trial.out, "{} {most} runs {bytes} bytes:", self.name)?;
        trial.tell(script)?;
        self.rt.println(trial.out.as_str())?;
        Ok(())
    }

    /// The same for each list of letters, with a space between them.
    fn tell_each(&self, most: usize, bytes: usize, lists: &str) -> anyhow::Result<()> {
        for letters in lists.split(' ') {
            self.tell(most, bytes, &[Times(1, letters)])?;
        }
        Ok(())
    }

    fn runs(&self) -> anyhow::Result<()> {
        for most in 0..4 {
            self.tell_each(most, 8, "aaaa aAaA aAAb")?;
        }
        self.tell_each(4, 8, "aAfsaA")
    }

    fn columns(&self) -> anyhow::Result<()> {
        let wide = self.wide;
        let ends = [
            Times(4096, "a"),
            Times(2048, wide),
            Times(4095, "a"),
            Times(4094, "a"),
            Times(2047, wide),
        ];
        for many in ends {
            self.tell(4, 9000, &[many, Times(1, wide), Times(1, "ab")])?;
        }
        Ok(())
    }

    /// Wide cells at the ends of the words of bits.
    fn edges(&self) -> anyhow::Result<()> {
        for start in [62, 63, 64, 4093, 4094, 4095] {
            self.tell(
                2,
                5000,
                &[Times(start, "a"), Times(1, self.wide), Times(1, "ab")],
            )?;
        }
        self.tell(
            2,
            200,
            &[Times(31, self.wide), Times(1, "a"), Times(2, self.wide)],
        )?;
        self.tell(
            2,
            200,
            &[Times(62, "a"), Times(2, self.wide), Times(1, "a")],
        )
    }

    /// Rows as long as there are columns, of equal and of alternating attributes.
    fn long_rows(&self) -> anyhow::Result<()> {
        self.tell(1, 4096, &[Times(4096, "a"), Times(1, "aA")])?;
        self.tell(1, 4095, &[Times(4096, "a"), Times(1, "A")])?;
        for most in [4096, 4095] {
            self.tell(most, 4096, &[Times(2048, "aA"), Times(1, "ab")])?;
        }
        Ok(())
    }

    fn drops(&self) -> anyhow::Result<()> {
        self.tell_each(2, 3, "<<=a aA<A aAf<b<<<fs aAfs=sAaa ab1<2<c<")?;
        let wide = self.wide;
        self.tell(2, 200, &[Times(63, "a"), Times(1, wide), Times(1, "<Aab")])?;
        self.tell(
            2,
            200,
            &[
                Times(63, "a"),
                Times(1, wide),
                Times(1, "<"),
                Times(1, wide),
                Times(1, "a"),
            ],
        )?;
        self.tell(1, 4096, &[Times(4097, "a"), Times(1, "<bb<<bbb")])?;
        self.tell(
            1,
            4096,
            &[Times(4096, "a"), Times(4097, "<"), Times(1, "A")],
        )?;
        self.tell(4096, 4096, &[Times(2049, "aA"), Times(1, "<BA=ABa")])
    }

    fn all(&self) -> anyhow::Result<()> {
        self.runs()?;
        self.columns()?;
        self.edges()?;
        self.long_rows()?;
        self.drops()
    }
}

fn color(attributes: u32, foreground: SmallColor) -> CellAttributes {
    CellAttributes::new(attributes, foreground, SmallColor::Default).unwrap_or(
        CellAttributes::blank(),
    )
}

/// The blank, a colour, the flag alone, and a bit that is never read.
fn colors() -> [CellAttributes; 4] {
    [
        CellAttributes::blank(),
        color(0, SmallColor::PaletteIndex(1)),
        color(0x800, SmallColor::Default),
        color(1, SmallColor::Default),
    ]
}

fn strip(number: u8, wrapped: bool) -> StripAttributes {
    StripAttributes::new(number, wrapped).unwrap_or(StripAttributes::blank())
}

/// The blank, a type, the flag alone, and both.
fn strips() -> [StripAttributes; 4] {
    [
        StripAttributes::blank(),
        strip(1, false),
        strip(0, true),
        strip(2, true),
    ]
}

fn ascii(rt: &HostRuntime) -> anyhow::Result<()> {
    let bench = Bench::<CellAttributes, Ascii> {
        rt,
        name: "ASCII, colour",
        wide: "x",
        attrs: colors(),
        number: 7,
        splitter: PhantomData,
    };
    bench.all()?;
    for bytes in 0..4 {
        bench.tell_each(2, bytes, "aAb")?;
    }
    bench.tell_each(2, 2, "CL C_L Ea2 am")?;
    bench.tell_each(0, 0, "12Ea")
}

/// Texts that fuse, and refusals of which two fit.
fn fusing(bench: &Bench<CellAttributes, Utf8>) -> anyhow::Result<()> {
    bench.tell_each(
        3,
        20,
        "em Em _m CL Cm Wm nm mm ma ej 7m 3m mjE eE hk rr WVn aMa e1c2dm em=m eE<m a<m",
    )?;
    bench.tell_each(1, 1, "ecdmMa 2a1A mea")?;
    bench.tell_each(1, 9, "eMA")?;
    bench.tell_each(0, 9, "12dcma")?;
    bench.tell_each(9, 0, "12dcma")?;
    bench.tell(1, 5000, &[Times(4095, "a"), Times(1, "emM1a")])
}

fn utf8(rt: &HostRuntime) -> anyhow::Result<()> {
    let bench = Bench::<CellAttributes, Utf8> {
        rt,
        name: "UTF-8, colour",
        wide: "W",
        attrs: colors(),
        number: 0,
        splitter: PhantomData,
    };
    bench.all()?;
    for bytes in 0..13 {
        bench.tell_each(1, bytes, "37a")?;
    }
    for bytes in 6..9 {
        bench.tell_each(2, bytes, "7a a7<7")?;
    }
    fusing(&bench)
}

fn strip_kind(rt: &HostRuntime) -> anyhow::Result<()> {
    let bench = Bench::<StripAttributes, Utf8> {
        rt,
        name: "UTF-8, strip",
        wide: "W",
        attrs: strips(),
        number: u64::MAX,
        splitter: PhantomData,
    };
    bench.runs()
}

fn main(rt: HostRuntime) -> anyhow::Result<()> {
    ascii(&rt)?;
    utf8(&rt)?;
    strip_kind(&rt)
}
