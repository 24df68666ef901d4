// Reports on a joined feed of text and packed items, and prints the report's rows.
#![tactic(auto)]

use anyhow::anyhow;
use feed::cursors::InputFeed;
use feed::feeds::Feed;
use feed::inputs::{Encoding, Packed, Text};
use feed::joins::Joined;
use report::rows::{fault_row, summary};
use report::surveys::survey;
use std::fs;

// The numbers of a text, parted by white space. (`feed_cases` has the same chain: as a library's function its contract would
// be longer than the chain.)
fn numbers(rt: &HostRuntime, path: &str) -> anyhow::Result<Vec<u32>> {
    let text = fs::read_to_string(rt, path)?;
    text.as_str()
        .split_whitespace()
        .map(|word| -> anyhow::Result<u32> { Ok(word.parse::<u32>()?) })
        .try_collect(rt.alloc())
}

// The report on all that waits in a joined feed.
fn reported(rt: &HostRuntime, text: &[u8], words: &[u32]) -> anyhow::Result<()> {
    println!(rt; "report on a joined feed")?;
    let a = InputFeed::<Text>::open(text, 1, 1).map_err(|_| anyhow!("a feed was refused"))?;
    let b = InputFeed::<Packed>::open(words, 2, 1).map_err(|_| anyhow!("a feed was refused"))?;
    let report = survey(rt.alloc(), &mut Joined::new(a, b))?;
    rt.print(summary(rt.alloc(), &report)?)?;
    for fault in report.faults() {
        rt.print(fault_row(rt.alloc(), *fault)?)?;
    }
    Ok(())
}

fn run(rt: &HostRuntime) -> anyhow::Result<()> {
    let text = fs::read(rt, "joined.dat")?;
    let words = numbers(rt, "joined.txt")?;
    reported(rt, text.as_slice(), words.as_slice())
}

fn main(rt: HostRuntime) -> anyhow::Result<()> {
    run(&rt)
}
