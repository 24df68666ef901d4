// Runs feeds on tables of cases, and prints each item as its numbers.
#![tactic(auto)]

use anyhow::anyhow;
use feed::cursors::InputFeed;
use feed::faults::{FaultNumbers, Item};
use feed::feeds::Feed;
use feed::inputs::{Encoding, OpenRefusal, Packed, Text};
use feed::joins::Joined;
use feed::lines::Line;
use std::{fmt, fs};

// The most items of a feed that are printed.
const MOST: u32 = 100;

// How an item or a refusal is printed.
#[derive(Clone, Copy)]
struct Printed<T>(T);

impl fmt::Display for Printed<Item> {
    fn fmt<W: fmt::Write>(&self, f: &mut fmt::Formatter<W>) -> fmt::Result {
        match self.0 {
            Item::Sound(line) => {
                let Line {
                    time,
                    kind,
                    machine,
                    crew,
                    run,
                    reading,
                } = line;
                write!(f, "sound {time} {kind} {machine} {crew} {run} {reading}")
            }
            Item::Faulty(fault) => {
                let FaultNumbers {
                    number,
                    station,
                    item,
                    field,
                } = fault.numbers();
                write!(f, "fault {number} {station} {item} {field}")
            }
        }
    }
}

impl fmt::Display for Printed<OpenRefusal> {
    fn fmt<W: fmt::Write>(&self, f: &mut fmt::Formatter<W>) -> fmt::Result {
        let number = self.0.number();
        match self.0 {
            OpenRefusal::Station => write!(f, "refused {number} station"),
            OpenRefusal::FirstItem => write!(f, "refused {number} first item"),
            OpenRefusal::InputLength => write!(f, "refused {number} input length"),
        }
    }
}

// An encoding by name, what its inputs are counted in, and the unit that fills an input where no item matters.
trait Named: Encoding {
    fn name() -> &'static str;

    fn units() -> &'static str;

    fn filling() -> Self::Unit;
}

impl Named for Text {
    fn name() -> &'static str {
        "text"
    }

    fn units() -> &'static str {
        "bytes"
    }

    fn filling() -> u8 {
        b' '
    }
}

impl Named for Packed {
    fn name() -> &'static str {
        "packed"
    }

    fn units() -> &'static str {
        "words"
    }

    // A time over its limit.
    fn filling() -> u32 {
        10_000_000
    }
}

// Prints and drops what waits.
fn drain<F: Feed>(rt: &HostRuntime, feed: &mut F) -> anyhow::Result<()> {
    for _ in 0..MOST {
        let Some(item) = feed.look() else {
            let more = feed.drop_first();
            println!(rt; "end, drop answers {more}")?;
            return Ok(());
        };
        println!(rt; "{}", Printed(item))?;
        let _ = feed.drop_first();
    }
    Ok(())
}

// How many items wait, and the last of them; at most 5,000.
fn count<F: Feed>(rt: &HostRuntime, feed: &mut F) -> anyhow::Result<()> {
    let mut last = None;
    for n in 0..5_000u32 {
        let item = feed.look();
        if !feed.drop_first() {
            println!(rt; "{n} items")?;
            break;
        }
        last = item;
    }
    if let Some(item) = last {
        println!(rt; "{}", Printed(item))?;
    }
    Ok(())
}

// A feed over the input, drained or refused.
fn case<E: Named>(
    rt: &HostRuntime,
    input: &[E::Unit],
    station: u16,
    first: u64,
) -> anyhow::Result<()> {
    let name = E::name();
    let units = E::units();
    let len = input.len();
    println!(rt; "{name} feed: {len} {units}, station {station}, first {first}")?;
    match InputFeed::<E>::open(input, station, first) {
        Ok(mut feed) => drain(rt, &mut feed)?,
        Err(refusal) => println!(rt; "{}", Printed(refusal))?,
    }
    Ok(())
}

// A feed over an input of one unit repeated, counted or refused.
fn opening<E: Named>(rt: &HostRuntime, len: usize, station: u16, first: u64) -> anyhow::Result<()> {
    let name = E::name();
    let units = E::units();
    println!(rt; "open {name}: {len} {units}, station {station}, first {first}")?;
    let input = vec![in rt.alloc(); E::filling(); len]?;
    match InputFeed::<E>::open(input.as_slice(), station, first) {
        Ok(mut feed) => count(rt, &mut feed)?,
        Err(refusal) => println!(rt; "{}", Printed(refusal))?,
    }
    Ok(())
}

// The numbers of a text, parted by white space. (`report_cases` has the same chain: as a library's function its contract would
// be longer than the chain.)
fn numbers(rt: &HostRuntime, path: &str) -> anyhow::Result<Vec<u32>> {
    let text = fs::read_to_string(rt, path)?;
    text.as_str()
        .split_whitespace()
        .map(|word| -> anyhow::Result<u32> { Ok(word.parse::<u32>()?) })
        .try_collect(rt.alloc())
}

// The first bytes of the table, with every remainder.
fn text_remainders(rt: &HostRuntime, text: &[u8]) -> anyhow::Result<()> {
    for len in [0usize, 1, 34, 35, 36, 69, 70] {
        if let Some(front) = text.get(0..len) {
            case::<Text>(rt, front, 1, 1)?;
        }
    }
    Ok(())
}

fn packed_remainders(rt: &HostRuntime, words: &[u32]) -> anyhow::Result<()> {
    for len in 0..9usize {
        if let Some(front) = words.get(0..len) {
            case::<Packed>(rt, front, 9_999, 9_990_000)?;
        }
    }
    Ok(())
}

// Openings at the limits and one past them.
fn openings(rt: &HostRuntime) -> anyhow::Result<()> {
    for station in [0u16, 1, 9_999, 10_000] {
        opening::<Text>(rt, 35, station, 1)?;
        opening::<Packed>(rt, 4, station, 1)?;
    }
    for first in [0u64, 1, 9_990_000, 9_990_001] {
        opening::<Text>(rt, 70, 1, first)?;
        opening::<Packed>(rt, 8, 1, first)?;
    }
    for len in [65_535usize, 65_536, 65_537] {
        opening::<Text>(rt, len, 1, 9_990_000)?;
    }
    for len in [16_383usize, 16_384, 16_385] {
        opening::<Packed>(rt, len, 1, 9_990_000)?;
    }
    opening::<Text>(rt, 65_537, 0, 0)?;
    opening::<Text>(rt, 65_537, 1, 0)
}

// A feed of items numbered from 1.
fn opened<E: Encoding>(input: &[E::Unit], station: u16) -> anyhow::Result<InputFeed<'_, E>> {
    InputFeed::<E>::open(input, station, 1).map_err(|_| anyhow!("a feed was refused"))
}

// A joined feed of joined feeds, of two makes.
fn joined(rt: &HostRuntime, text: &[u8], words: &[u32]) -> anyhow::Result<()> {
    println!(rt; "joined feed of joined feeds")?;
    let a = opened::<Text>(text, 1)?;
    let b = opened::<Packed>(words, 2)?;
    let c = opened::<Packed>(words, 3)?;
    let d = opened::<Text>(text, 4)?;
    drain(rt, &mut Joined::new(Joined::new(a, b), Joined::new(c, d)))
}

fn run(rt: &HostRuntime) -> anyhow::Result<()> {
    let text = fs::read(rt, "text.dat")?;
    let words = numbers(rt, "words.txt")?;
    case::<Text>(rt, text.as_slice(), 7, 41)?;
    case::<Packed>(rt, words.as_slice(), 8, 51)?;
    text_remainders(rt, text.as_slice())?;
    packed_remainders(rt, words.as_slice())?;
    openings(rt)?;
    let text = fs::read(rt, "joined.dat")?;
    let words = numbers(rt, "joined.txt")?;
    joined(rt, text.as_slice(), words.as_slice())
}

fn main(rt: HostRuntime) -> anyhow::Result<()> {
    run(&rt)
}
