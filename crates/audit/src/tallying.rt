// `audit tally BOOK LOG...`: how many rules each recording leaves satisfied, breached and pending, and all together.
use crate::auditing::{run_feed, tell_stop};
use crate::files::bytes_of;
use crate::recording::opened;
use crate::turns::taken_by;
use crate::{Status, misused};
use anyhow::{Context, anyhow};
use duty::verdicts::Verdict;
use feed::inputs::Text;
use roundup::rounding::{OutsideResults, round_up};
use roundup::tallies::Tally;
use runs::calls::Side;
use std::fmt;

// A verdict in words.
#[derive(Clone, Copy)]
struct Words(Verdict);

impl fmt::Display for Words {
    fn fmt<W: fmt::Write>(&self, f: &mut fmt::Formatter<W>) -> fmt::Result {
        match self.0 {
            Verdict::Pending => f.write_str("pending"),
            Verdict::Satisfied(line) => write!(f, "satisfied at line {line}"),
            Verdict::Breached(line) => write!(f, "breached at line {line}"),
        }
    }
}

fn outside(refusal: OutsideResults) -> anyhow::Error {
    anyhow!(
        "refused {}: a stretch outside the results",
        refusal.number()
    )
}

// The tally of the verdicts from `start` on, and their join.
fn print_tally(
    rt: &HostRuntime,
    name: &str,
    verdicts: &[Verdict],
    start: usize,
) -> anyhow::Result<()> {
    let tallies: Vec<Tally> = verdicts
        .iter()
        .map(|verdict| Tally::from(*verdict))
        .collect(rt.alloc())?;
    let count = verdicts.len().saturating_sub(start);
    let tally = round_up(tallies.as_slice(), start, count).map_err(outside)?;
    let words = Words(round_up(verdicts, start, count).map_err(outside)?);
    let satisfied = tally.satisfied();
    let breached = tally.breached();
    let pending = tally.pending();
    println!(rt;
        "{name}: {satisfied} satisfied, {breached} breached, {pending} pending; the book is {words}"
    )?;
    Ok(())
}

// Audits one recording, prints its tally, and adds its verdicts to all.
fn tally_one(
    rt: &HostRuntime,
    book: &[u8],
    path: &str,
    all: &mut Vec<Verdict>,
) -> anyhow::Result<Status> {
    let text = bytes_of(rt, path)?;
    let log = opened::<Text>(text.as_slice(), 1)?;
    let run = run_feed(rt, book, log)?.context("the book is refused")?;
    let start = all.len();
    all.extend_from_slice(run.pair.first.verdicts())?;
    print_tally(rt, path, all.as_slice(), start)?;
    tell_stop(rt, taken_by(run.turns.as_slice(), Side::First))
}

// The tally of each recording, and of all together.
fn tally_all(rt: &HostRuntime, book: &str, logs: &[String]) -> anyhow::Result<Status> {
    let book = bytes_of(rt, book)?;
    let mut all: Vec<Verdict> = Vec::new(rt.alloc());
    let mut status = Status::Success;
    for log in logs {
        if let Status::Refused = tally_one(rt, book.as_slice(), log.as_str(), &mut all)? {
            status = Status::Refused;
        }
    }
    print_tally(rt, "all", all.as_slice(), 0)?;
    Ok(status)
}

// A book and one recording or more.
pub fn tally(rt: &HostRuntime, paths: &[String]) -> anyhow::Result<Status> {
    match paths {
        [book, logs @ ..] if !logs.is_empty() => tally_all(rt, book.as_str(), logs),
        _ => misused(rt),
    }
}
