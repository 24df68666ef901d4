// The turns of a case, read from its lines.
use anyhow::{Context, anyhow};
use runs::calls::{Call, Side, Turn};
use std::alloc::Global;
use std::str::Split;

// What a buffer holds before a page is written into it.
const FILLING: u8 = b'.';

// A call, and the length of its buffer.
struct Asked {
    call: Call,
    room: usize,
}

fn word<'a>(words: &mut Split<'a, char>) -> anyhow::Result<&'a str> {
    words.next().context("a turn has too few words")
}

fn side_of(name: &str) -> anyhow::Result<Side> {
    match name {
        "1" => Ok(Side::First),
        "2" => Ok(Side::Second),
        _ => Err(anyhow!("a turn is at no auditor")),
    }
}

// `take FEED COUNT`, `skip FEED`, `verdicts ROOM` or `sheet ROOM`.
fn read_call(words: &mut Split<char>) -> anyhow::Result<Asked> {
    let name = word(words)?;
    let number = word(words)?.parse::<usize>()?;
    let (call, room) = match name {
        "take" => {
            let count = word(words)?.parse::<u32>()?;
            let feed = number;
            (Call::Take { feed, count }, 0)
        }
        "skip" => (Call::Skip { feed: number }, 0),
        "verdicts" => (Call::VerdictPage, number),
        "sheet" => (Call::SheetPage, number),
        _ => return Err(anyhow!("a turn has no such call")),
    };
    Ok(Asked { call, room })
}

fn turn_of(heap: Global, line: &str) -> anyhow::Result<Turn> {
    let mut words = line.split(' ');
    let side = side_of(word(&mut words)?)?;
    let Asked { call, room } = read_call(&mut words)?;
    Ok(Turn {
        side,
        call,
        buffer: vec![in heap; FILLING; room]?,
        answer: None,
    })
}

pub fn turns_of(heap: Global, lines: &str) -> anyhow::Result<Vec<Turn>> {
    lines
        .lines()
        .map(|line| -> anyhow::Result<Turn> { turn_of(heap, line) })
        .try_collect(heap)
}
