//! The panel: rows of text from standard input, each gauged against the door display and the laptop, and shown as a row.
#![tactic(auto)]

use panels::report_text;
use reports::help::HELP;
use std::env;
use std::io::Read;

/// Whether the first argument asks for help.
fn wants_help(rt: &HostRuntime) -> anyhow::Result<bool> {
    let word = env::args(rt)?.nth(1);
    Ok(word.is_some_and(|word| word.as_str() == "--help"))
}

fn run(rt: &HostRuntime) -> anyhow::Result<()> {
    if wants_help(rt)? {
        rt.println(HELP)?;
        return Ok(());
    }
    let mut text = Vec::new(rt.alloc());
    rt.stdin().read_to_end(&mut text)?;
    report_text(rt, rt.alloc(), text.as_slice())?;
    Ok(())
}

fn main(rt: HostRuntime) -> anyhow::Result<()> {
    run(&rt)
}
