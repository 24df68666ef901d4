// How long a line takes: `bench_takes time` prints nanoseconds per line and per open entry, for idle lines that an auditor takes
// from a text recording, reading included: for books of 1, 4 and 16 rules with an almost empty and an almost full sheet, and
// for books whose deadline names no kind; and microseconds to read a large book. Run with no argument it prints the
// sizes alone.
#![tactic(auto)]

use anyhow::anyhow;
use auditor::answers::Stop;
use auditor::auditors::Auditor;
use book::whole::read_book;
use feed::inputs::Text;
use feed::recordings::Recording;
use std::env;
use std::time::Instant;

// Every pattern asks for a kind.
const KINDS: &str = "each [kind 1] until never then must [kind 3] before [kind 4];\n";

// The deadline asks for none, so that every line concerns the rule.
const TIMES: &str =
    "each [kind 1, time B] until never then must [kind 3] before [time C if C >= B + 240];\n";

// Idle lines for each measure.
const LINES: usize = 200_000;

// A line of kind 1, which opens a duty of every rule, and one of kind 2, which no rule asks for.
const OPENING: &str = " 1234567   1 1017 2003 1021    250\n";

const IDLE: &str = " 1234567   2 1017 2003 1021    250\n";

// An auditor on a book of so many equal rules.
fn auditor_of(rt: &HostRuntime, rule: &str, rules: usize) -> anyhow::Result<Auditor> {
    let text = rule.repeat(rt.alloc(), rules)?;
    let mut auditor = Auditor::new(rt.alloc())?;
    auditor
        .open(rt.alloc(), text.as_bytes())
        .map_err(|_| anyhow!("the book was refused"))?;
    Ok(auditor)
}

// Takes a line so many times, and answers the nanoseconds.
fn take_lines(
    rt: &HostRuntime,
    auditor: &mut Auditor,
    line: &str,
    lines: usize,
) -> anyhow::Result<u128> {
    let text = line.repeat(rt.alloc(), lines)?;
    let mut recording = Recording::<Text>::open(text.as_bytes(), 1).map_err(|_| anyhow!(
        "a station is 1 to 9,999"
    ))?;
    let start = Instant::now(rt)?;
    for _ in 0..lines {
        match auditor.take(&mut recording, 4_096).stop {
            Stop::Done => {}
            Stop::Dry => break,
            Stop::Refused(_) => return Err(anyhow!("a line was refused")),
        }
    }
    Ok(start.elapsed(rt)?.as_nanos())
}

// How many entries are open: the sheet page has 78 bytes for each.
fn entries(rt: &HostRuntime, auditor: &Auditor) -> anyhow::Result<usize> {
    let mut buffer = vec![in rt.alloc(); 0u8; 19_968]?;
    let length = auditor
        .sheet_page(buffer.as_mut_slice())
        .map_err(|_| anyhow!("the page has no room"))?;
    Ok(length / 78)
}

fn measure(
    rt: &HostRuntime,
    rule: &str,
    rules: usize,
    opened: usize,
    timed: bool,
) -> anyhow::Result<()> {
    let mut auditor = auditor_of(rt, rule, rules)?;
    let _ = take_lines(rt, &mut auditor, OPENING, opened)?;
    let entries = entries(rt, &auditor)?;
    println!(rt; "{rules} rules, {entries} entries")?;
    if timed {
        let nanos = take_lines(rt, &mut auditor, IDLE, LINES)?;
        let per_line = nanos / (LINES as u128);
        let per_entry = per_line / (entries.max(1) as u128);
        println!(rt; "    {per_line} ns per line, {per_entry} ns per entry")?;
    }
    Ok(())
}

// One of 16 rules of a large book.
const LARGE_RULE: &str =
    "each [kind 1, run A] until [kind 9] then (must [kind 3, run A] before [time B if B >= 2 * A + 240] else mustnot [kind 4] before never);\n";

// A text of 8,192 bytes with 16 rules of four nodes each, each filled up with blanks.
fn large_text(rt: &HostRuntime) -> anyhow::Result<String> {
    let rule = format!(in rt.alloc(); "{LARGE_RULE:<512}")?;
    Ok(rule.as_str().repeat(rt.alloc(), 16)?)
}

// How long reading that book takes, or how large it is. (The other bench has the same text, the same measures and the same
// rows: a library for both would promise that text by writing it again, and nothing of time.)
fn reading(rt: &HostRuntime, timed: bool) -> anyhow::Result<()> {
    let text = large_text(rt)?;
    let len = text.len();
    println!(rt; "a book of {len} bytes")?;
    if !timed {
        return Ok(());
    }
    let start = Instant::now(rt)?;
    for _ in 0..1_000u32 {
        if read_book(rt.alloc(), text.as_bytes()).is_err() {
            return Err(anyhow!("the book was refused"));
        }
    }
    let micros = start.elapsed(rt)?.as_micros() / 1_000;
    println!(rt; "    {micros} microseconds to read it")?;
    Ok(())
}

fn run(rt: &HostRuntime) -> anyhow::Result<()> {
    let timed = env::args(rt)?.skip(1).count() > 0;
    println!(rt; "every pattern asks for a kind")?;
    for (rules, most) in [(1usize, 254usize), (4, 62), (16, 14)] {
        measure(rt, KINDS, rules, 0, timed)?;
        measure(rt, KINDS, rules, most, timed)?;
    }
    println!(rt; "the deadline asks for no kind")?;
    for (rules, most) in [(1usize, 254usize), (16, 14)] {
        measure(rt, TIMES, rules, 0, timed)?;
        measure(rt, TIMES, rules, most, timed)?;
    }
    reading(rt, timed)
}

fn main(rt: HostRuntime) -> anyhow::Result<()> {
    run(&rt)
}
