// `audit BOOK LOG [LOG]`: the verdict page and the sheet page of a recording, or of two joined.
use crate::books::told;
use crate::files::bytes_of;
use crate::recording::{Log, opened};
use crate::turns::{pages_of, push_pages, take_turn, taken_by, takes_for};
use crate::{Status, misused};
use auditor::answers::{Refusal, Stop, Taken};
use feed::faults::Fault;
use feed::feeds::Feed;
use feed::inputs::Text;
use feed::joins::Joined;
use report::rows::Named;
use runs::calls::{Side, Turn};
use runs::observers::Unobserved;
use runs::pair::Pair;
use runs::pairs::audit_both;
use runs::racks::{NoFeeds, Rack};
use std::fmt;
use std::io::Write;

// The auditors of a run, and its turns with their answers.
#[derive(Drop)]
pub struct Run {
    pub pair: Pair,
    pub turns: Vec<Turn>,
}

// Where a faulty item stands. (A row of the report has these words too, between others: its definition would be cut in two
// to share them.)
#[derive(Clone, Copy)]
struct Place(Fault);

impl fmt::Display for Place {
    fn fmt<W: fmt::Write>(&self, f: &mut fmt::Formatter<W>) -> fmt::Result {
        let Fault {
            kind,
            station,
            item,
        } = self.0;
        write!(f, "station {station}, item {item}, {}", Named(kind.field()))
    }
}

// Why the taking stopped, and after how many lines.
#[derive(Clone, Copy)]
struct Stopped(Taken);

impl fmt::Display for Stopped {
    fn fmt<W: fmt::Write>(&self, f: &mut fmt::Formatter<W>) -> fmt::Result {
        let Taken { lines, stop } = self.0;
        match stop {
            Stop::Done => write!(f, "stopped: done after {lines} lines"),
            Stop::Dry => write!(f, "stopped: dry after {lines} lines"),
            Stop::Refused(refusal) => {
                let number = refusal.numbers().number;
                write!(
                    f,
                    "stopped: refused {number} after {lines} lines: {refusal}"
                )?;
                match refusal {
                    Refusal::Faulty(fault) => write!(f, ", {}", Place(fault)),
                    _ => Ok(()),
                }
            }
        }
    }
}

// Says on standard error why the taking stopped.
pub fn tell_stop(rt: &HostRuntime, taken: Taken) -> anyhow::Result<Status> {
    eprintln!(rt; "{}", Stopped(taken))?;
    Ok(match taken.stop {
        Stop::Refused(_) => Status::Refused,
        Stop::Done | Stop::Dry => Status::Success,
    })
}

// Takes what waits in a feed up to the first refusal, then calls for both pages; none where the book is refused,
// which is then told.
pub fn run_feed<F: Feed + Drop>(
    rt: &HostRuntime,
    book: &[u8],
    log: Log<F>,
) -> anyhow::Result<Option<Run>> {
    let heap = rt.alloc();
    let mut turns: Vec<Turn> = (0..takes_for(Side::First, log.items))
        .map(|_| take_turn(heap, Side::First))
        .collect(heap)?;
    push_pages(&mut turns, heap, Side::First)?;
    let mut rack = Rack {
        first: log.feed,
        rest: NoFeeds,
    };
    match audit_both(
        heap,
        book,
        &mut rack,
        &mut NoFeeds,
        turns.as_mut_slice(),
        &mut Unobserved,
    ) {
        Ok(pair) => Ok(Some(Run { pair, turns })),
        Err(refusal) => {
            told(rt, book, refusal)?;
            Ok(None)
        }
    }
}

// Audits what waits in a feed, and prints both pages.
fn audit_feed<F: Feed + Drop>(
    rt: &HostRuntime,
    book: &[u8],
    log: Log<F>,
) -> anyhow::Result<Status> {
    let Some(run) = run_feed(rt, book, log)? else {
        return Ok(Status::Refused);
    };
    let pages = pages_of(rt.alloc(), run.turns.as_slice(), Side::First)?;
    rt.stdout().write_all(pages.as_slice())?;
    tell_stop(rt, taken_by(run.turns.as_slice(), Side::First))
}

// The audit of one recording at station 1, or of two, at stations 1 and 2, joined.
pub fn audit(rt: &HostRuntime, paths: &[String]) -> anyhow::Result<Status> {
    match paths {
        [book, log] => {
            let book = bytes_of(rt, book.as_str())?;
            let text = bytes_of(rt, log.as_str())?;
            audit_feed(rt, book.as_slice(), opened::<Text>(text.as_slice(), 1)?)
        }
        [book, left, right] => {
            let book = bytes_of(rt, book.as_str())?;
            let left = bytes_of(rt, left.as_str())?;
            let right = bytes_of(rt, right.as_str())?;
            let left = opened::<Text>(left.as_slice(), 1)?;
            let right = opened::<Text>(right.as_slice(), 2)?;
            let items = left.items.saturating_add(right.items);
            let feed = Joined::new(left.feed, right.feed);
            audit_feed(rt, book.as_slice(), Log { feed, items })
        }
        _ => misused(rt),
    }
}
