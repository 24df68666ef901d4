// Runs both auditors of one call on each case of the input, and prints their answers and pages.
//
// A case is a book text, a log text and its turns, a line for each; `--` ends the first two, and `==` the case.
#![tactic(auto)]

mod answers;
mod turns;

use answers::print_side;
use anyhow::{Context, anyhow};
use book::refusals::{Fault, Refusal};
use feed::cursors::InputFeed;
use feed::inputs::Text;
use feed::joins::Joined;
use feed::recordings::Recording;
use runs::calls::{Side, Turn};
use runs::observers::Unobserved;
use runs::pairs::audit_both;
use runs::racks::{NoFeeds, Rack};
use std::alloc::Global;
use std::io::Read;
use turns::turns_of;

fn opened(log: &[u8], station: u16) -> anyhow::Result<Recording<'_, Text>> {
    Recording::<Text>::open(log, station).map_err(|_| anyhow!("a feed was refused"))
}

// Makes the turns on the log: the first auditor draws on a text feed, the second on a joined feed.
fn audit(
    heap: Global,
    book: &str,
    log: &str,
    turns: &mut [Turn],
) -> anyhow::Result<Option<Refusal>> {
    let log = log.as_bytes();
    let text = InputFeed::<Text>::open(log, 1, 1).map_err(|_| anyhow!("a feed was refused"))?;
    let left = opened(log, 2)?;
    let right = opened(b"", 3)?;
    let mut first = Rack {
        first: text,
        rest: NoFeeds,
    };
    let mut second = Rack {
        first: Joined::new(left, right),
        rest: NoFeeds,
    };
    let audited = audit_both(
        heap,
        book.as_bytes(),
        &mut first,
        &mut second,
        turns,
        &mut Unobserved,
    );
    Ok(audited.err())
}

// Prints what a case answers.
fn print_case(rt: &HostRuntime, case: &str) -> anyhow::Result<()> {
    let (book, rest) = case.split_once("--\n").context("a case has no log")?;
    let (log, calls) = rest.split_once("--\n").context("a case has no turns")?;
    let heap = rt.alloc();
    let mut turns = turns_of(heap, calls)?;
    match audit(heap, book, log, turns.as_mut_slice())? {
        None => {
            print_side(rt, turns.as_slice(), Side::First)?;
            print_side(rt, turns.as_slice(), Side::Second)?;
        }
        Some(Refusal::Faulty(Fault { reason, place })) => {
            println!(rt; "refused {} at {}", reason.number(), place)?;
        }
        Some(Refusal::NoMemory) => return Err(anyhow!("no memory")),
    }
    Ok(())
}

fn run(rt: &HostRuntime) -> anyhow::Result<()> {
    let mut input = String::new(rt.alloc());
    rt.stdin().read_to_string(&mut input)?;
    let cases = input.as_str().split("==\n").filter(|case| !case.is_empty());
    for (number, case) in (1u32..).zip(cases) {
        println!(rt; "case {number}")?;
        print_case(rt, case)?;
    }
    Ok(())
}

fn main(rt: HostRuntime) -> anyhow::Result<()> {
    run(&rt)
}
