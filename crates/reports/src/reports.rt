//! What the panel says of a line and of all lines.
use cells::refusal::Refusal;
use gauge::account::Account;
use gauge::accounts::{DOOR, LAPTOP, excess};
use gauge::measure::Measure;
use std::fmt;

/// A line by its number, from 1, and what it comes to.
#[derive(Drop)]
pub struct LineReport<'a> {
    pub number: u128,
    pub outcome: &'a Result<Measure, Refusal>,
}

/// The account of all lines, a count to a line; refusals by number where there are some.
#[derive(Drop)]
pub struct AccountReport<'a>(pub &'a Account);

/// A row as a display shows it, and its change number.
#[derive(Drop)]
pub struct RowReport<'a> {
    pub number: u64,
    pub text: &'a str,
}

/// What a row takes in its packed form, or what refuses to pack it.
#[derive(Drop)]
pub struct PackingReport<'a>(pub &'a Result<runs::account::Account, Refusal>);

// A struct of its own, since an `Option` prints in no way of ours.
/// Whether a line fits a display, or by how many columns it passes it.
#[derive(Drop)]
struct Fitting(Option<u128>);

impl fmt::Display for Fitting {
    fn fmt<W: fmt::Write>(&self, f: &mut fmt::Formatter<W>) -> fmt::Result {
        match self.0 {
            None => write!(f, "fits"),
            Some(by) => write!(f, "passes by {by}"),
        }
    }
}

impl fmt::Display for LineReport<'_> {
    fn fmt<W: fmt::Write>(&self, f: &mut fmt::Formatter<W>) -> fmt::Result {
        let LineReport { number, outcome } = self;
        match outcome {
            Ok(m) => write!(
                f,
                "line {number}: {} columns, {} cells, {} controls became blanks; door display: {}; laptop: {}",
                m.columns,
                m.cells,
                m.controls,
                Fitting(excess(m.columns, DOOR)),
                Fitting(excess(m.columns, LAPTOP))
            ),
            Err(why) => write!(f, "line {number}: refused {}: {why}", why.number()),
        }
    }
}

impl fmt::Display for RowReport<'_> {
    fn fmt<W: fmt::Write>(&self, f: &mut fmt::Formatter<W>) -> fmt::Result {
        let RowReport { number, text } = self;
        write!(f, "  shown at change number {number}: |{text}|")
    }
}

impl fmt::Display for PackingReport<'_> {
    fn fmt<W: fmt::Write>(&self, f: &mut fmt::Formatter<W>) -> fmt::Result {
        match self.0 {
            Ok(used) => write!(
                f,
                "  packed: {} runs, {} bytes of text",
                used.runs, used.bytes
            ),
            Err(why) => write!(f, "  cannot be packed: refused {}: {why}", why.number()),
        }
    }
}

impl fmt::Display for AccountReport<'_> {
    fn fmt<W: fmt::Write>(&self, f: &mut fmt::Formatter<W>) -> fmt::Result {
        let Account {
            lines,
            cells,
            columns,
            widest,
            door,
            laptop,
            refused,
        } = self.0;
        writeln!(f, "lines: {lines}")?;
        writeln!(f, "cells: {cells}")?;
        writeln!(f, "columns: {columns}")?;
        writeln!(f, "widest line: {widest} columns")?;
        writeln!(f, "too wide for the door display ({DOOR} columns): {door}")?;
        write!(f, "too wide for the laptop ({LAPTOP} columns): {laptop}")?;
        for (number, count) in (1..).zip(refused) {
            if *count > 0 {
                write!(f, "\nrefused {number}: {count}")?;
            }
        }
        Ok(())
    }
}
