// The turns of an audit: takes until the recording stops, then both pages.
ghost use Rattle.std.specs.Prelude.{◌<◌};

use auditor::answers::{Stop, Taken};
use runs::calls::{Answer, Call, Side, Turn};
use std::alloc::{AllocError, Global};

// The bytes of the largest pages: 16 rules with 15 bytes each, 256 entries with 78 bytes each.
const VERDICT_BYTES: usize = 240;

const SHEET_BYTES: usize = 19_968;

// The most lines that a log may have.
const LOG_LINES: usize = 1_000_000;

// Lines to a take: the most that one may ask for at the first auditor, and another count at the second.
fn take_lines(side: Side) -> u32
    ensures { 0 < result }
{
    match side {
        Side::First => 4_096,
        Side::Second => 37,
    }
}

// One take from the side's first feed.
pub fn take_turn(heap: Global, side: Side) -> Turn {
    let count = take_lines(side);
    Turn {
        side,
        call: Call::Take { feed: 0, count },
        buffer: Vec::new(heap),
        answer: None,
    }
}

// How many takes a side needs for so many items: one more than the items can fill, so that the last of them stops for
// another reason than its count.
pub fn takes_for(side: Side, items: usize) -> usize {
    let full = items.min(LOG_LINES) / take_lines(side) as usize;
    full.saturating_add(1)
}

// The call for a page, with a buffer for the largest.
fn page_turn(heap: Global, side: Side, call: Call, bytes: usize) -> Result<Turn, AllocError> {
    Ok(Turn {
        side,
        call,
        buffer: vec![in heap; 0u8; bytes]?,
        answer: None,
    })
}

// The verdict page and the sheet page.
pub fn push_pages(turns: &mut Vec<Turn>, heap: Global, side: Side) -> Result<(), AllocError> {
    turns.push(page_turn(heap, side, Call::VerdictPage, VERDICT_BYTES)?)?;
    turns.push(page_turn(heap, side, Call::SheetPage, SHEET_BYTES)?)?;
    Ok(())
}

// How many lines the takes of a side took, and why the first of them that was not done stopped.
pub fn taken_by(turns: &[Turn], side: Side) -> Taken {
    let mut lines = 0u32;
    for turn in turns.iter().filter(|turn| turn.side == side) {
        if let Some(Answer::Took(taken)) = turn.answer {
            lines = lines.saturating_add(taken.lines);
            if !matches!(taken.stop, Stop::Done) {
                let stop = taken.stop;
                return Taken { lines, stop };
            }
        }
    }
    let stop = Stop::Done;
    Taken { lines, stop }
}

// The page that a turn wrote; nothing where it wrote none.
fn written_by(turn: &Turn) -> &[u8] {
    match turn.answer {
        Some(Answer::Paged(Ok(length))) => turn.buffer.get(0..length).unwrap_or(&[]),
        _ => &[],
    }
}

// The pages that a side's turns wrote, one after the other.
pub fn pages_of(heap: Global, turns: &[Turn], side: Side) -> Result<Vec<u8>, AllocError> {
    let mut pages = Vec::new(heap);
    for turn in turns.iter().filter(|turn| turn.side == side) {
        pages.extend_from_slice(written_by(turn))?;
    }
    Ok(pages)
}
