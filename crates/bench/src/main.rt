// How long a line takes: `bench time` prints nanoseconds per line and per open entry, for books of 1, 4 and 16
// rules with an almost empty and an almost full sheet, and microseconds to read a large book. Run with no
// argument it prints the sizes alone.
#![tactic(auto)]

use anyhow::anyhow;
use book::whole::read_book;
use duty::standings::Standing;
use feed::lines::Line;
use std::env;
use std::time::Instant;

const RULE: &str = "each [kind 1] until never then must [kind 3] before [kind 4];\n";

// Lines for each measure.
const LINES: u32 = 200_000;

// A line of a kind, all else 0.
fn line_of(kind: u32) -> anyhow::Result<Line> {
    Line::new(0, kind, 0, 0, 0, 0).map_err(|_| anyhow!("a kind is at most 999"))
}

// A book of so many equal rules, before any line.
fn standing_of(rt: &HostRuntime, rules: usize) -> anyhow::Result<Standing> {
    let text = RULE.repeat(rt.alloc(), rules)?;
    let book = read_book(rt.alloc(), text.as_bytes()).map_err(|_| anyhow!("the book was refused"))?;
    Ok(Standing::open(rt.alloc(), book)?)
}

// Opens a duty for each rule, line by line, while the sheet has room for one more of each.
fn fill(standing: &mut Standing, rules: usize) -> anyhow::Result<u32> {
    let opening = line_of(1)?;
    let mut last = 0u32;
    for number in 1..257u32 {
        if standing.sheet().len().saturating_add(rules) > 255 {
            break;
        }
        last = number;
        if standing.step(&opening, number).is_err() {
            break;
        }
    }
    Ok(last)
}

// Idle lines, and how many nanoseconds each took.
fn time_idle(rt: &HostRuntime, standing: &mut Standing, before: u32) -> anyhow::Result<()> {
    let idle = line_of(2)?;
    let start = Instant::now(rt)?;
    for line in 1..=LINES {
        let _ = standing.step(&idle, before.saturating_add(line));
    }
    let nanos = start.elapsed(rt)?.as_nanos();
    let per_line = nanos / u128::from(LINES);
    let entries = standing.sheet().len();
    let per_entry = per_line / (entries.max(1) as u128);
    println!(rt; "    {per_line} ns per line, {per_entry} ns per entry")?;
    Ok(())
}

// How many entries are open, and how long idle lines take, after so many lines.
fn measure(
    rt: &HostRuntime,
    rules: usize,
    standing: &mut Standing,
    before: u32,
    timed: bool,
) -> anyhow::Result<()> {
    let entries = standing.sheet().len();
    println!(rt; "{rules} rules, {entries} entries")?;
    if timed {
        time_idle(rt, standing, before)?;
    }
    Ok(())
}

// An almost empty and an almost full sheet.
fn measure_both(rt: &HostRuntime, rules: usize, timed: bool) -> anyhow::Result<()> {
    measure(rt, rules, &mut standing_of(rt, rules)?, 0, timed)?;
    let mut standing = standing_of(rt, rules)?;
    let before = fill(&mut standing, rules)?;
    measure(rt, rules, &mut standing, before, timed)
}

// One of 16 rules of a large book.
const LARGE_RULE: &str =
    "each [kind 1, run A] until [kind 9] then (must [kind 3, run A] before [time B if B >= 2 * A + 240] else mustnot [kind 4] before never);\n";

// A text of 8,192 bytes with 16 rules of four nodes each, each filled up with blanks.
fn large_text(rt: &HostRuntime) -> anyhow::Result<String> {
    let rule = format!(in rt.alloc(); "{LARGE_RULE:<512}")?;
    Ok(rule.as_str().repeat(rt.alloc(), 16)?)
}

// How long reading that book takes, or how large it is. (The other bench has the same text, the same measures and the same
// rows: a library for both would promise that text by writing it again, and nothing of time.)
fn reading(rt: &HostRuntime, timed: bool) -> anyhow::Result<()> {
    let text = large_text(rt)?;
    let len = text.len();
    println!(rt; "a book of {len} bytes")?;
    if !timed {
        return Ok(());
    }
    let start = Instant::now(rt)?;
    for _ in 0..1_000u32 {
        if read_book(rt.alloc(), text.as_bytes()).is_err() {
            return Err(anyhow!("the book was refused"));
        }
    }
    let micros = start.elapsed(rt)?.as_micros() / 1_000;
    println!(rt; "    {micros} microseconds to read it")?;
    Ok(())
}

fn run(rt: &HostRuntime) -> anyhow::Result<()> {
    let timed = env::args(rt)?.skip(1).count() > 0;
    for rules in [1usize, 4, 16] {
        measure_both(rt, rules, timed)?;
    }
    reading(rt, timed)
}

fn main(rt: HostRuntime) -> anyhow::Result<()> {
    run(&rt)
}
