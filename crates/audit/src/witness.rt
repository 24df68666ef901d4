// `audit witness BOOK LOG LOG`: two auditors on one book, one fed by text and the other by packed words, with takes of
// other lengths; prints whether their pages agree.
use crate::books::told;
use crate::files::bytes_of;
use crate::recording::opened;
use crate::turns::{pages_of, push_pages, take_turn, taken_by, takes_for};
use crate::{Status, misused};
use feed::faults::Item;
use feed::feeds::Feed;
use feed::inputs::{Packed, Text};
use runs::calls::{Side, Turn};
use runs::counts::TurnCount;
use runs::pairs::audit_both;
use runs::racks::{NoFeeds, Rack};
use std::alloc::AllocError;

// The sound lines of a recording up to its first fault, as packed words.
fn packed_words(rt: &HostRuntime, text: &[u8]) -> anyhow::Result<Vec<u32>> {
    let mut feed = opened::<Text>(text, 2)?.feed;
    let mut words = Vec::new(rt.alloc());
    while let Some(Item::Sound(line)) = feed.look() {
        words.extend_from_slice(&line.words())?;
        let _ = feed.drop_first();
    }
    Ok(words)
}

// Takes at the two auditors by turns, while either needs one, then the pages of both.
fn mixed_turns(rt: &HostRuntime, first: usize, second: usize) -> Result<Vec<Turn>, AllocError> {
    let heap = rt.alloc();
    let mut turns = Vec::new(heap);
    let first_takes = takes_for(Side::First, first);
    let second_takes = takes_for(Side::Second, second);
    for i in 0..first_takes.max(second_takes) {
        if i < first_takes {
            turns.push(take_turn(heap, Side::First))?;
        }
        if i < second_takes {
            turns.push(take_turn(heap, Side::Second))?;
        }
    }
    push_pages(&mut turns, heap, Side::First)?;
    push_pages(&mut turns, heap, Side::Second)?;
    Ok(turns)
}

// Prints how many lines each auditor took, and whether the pages are the same.
fn compare(rt: &HostRuntime, turns: &[Turn], count: &TurnCount) -> anyhow::Result<Status> {
    let first = taken_by(turns, Side::First).lines;
    let second = taken_by(turns, Side::Second).lines;
    let first_calls = count.first();
    let second_calls = count.second();
    println!(rt; "text feed: {first} lines in {first_calls} calls")?;
    println!(rt; "packed feed: {second} lines in {second_calls} calls")?;
    let one = pages_of(rt.alloc(), turns, Side::First)?;
    let two = pages_of(rt.alloc(), turns, Side::Second)?;
    if one.as_slice() == two.as_slice() {
        println!(rt; "the pages agree")?;
        Ok(Status::Success)
    } else {
        println!(rt; "the pages differ")?;
        Ok(Status::Refused)
    }
}

// The first recording as text, the second as packed words.
pub fn compare_makes(rt: &HostRuntime, paths: &[String]) -> anyhow::Result<Status> {
    let [book, left, right] = paths else {
        return misused(rt);
    };
    let book = bytes_of(rt, book.as_str())?;
    let left = bytes_of(rt, left.as_str())?;
    let right = bytes_of(rt, right.as_str())?;
    let words = packed_words(rt, right.as_slice())?;
    let text = opened::<Text>(left.as_slice(), 1)?;
    let packed = opened::<Packed>(words.as_slice(), 2)?;
    let mut turns = mixed_turns(rt, text.items, packed.items)?;
    let mut text_rack = Rack {
        first: text.feed,
        rest: NoFeeds,
    };
    let mut packed_rack = Rack {
        first: packed.feed,
        rest: NoFeeds,
    };
    let mut count = TurnCount::new();
    match audit_both(
        rt.alloc(),
        book.as_slice(),
        &mut text_rack,
        &mut packed_rack,
        turns.as_mut_slice(),
        &mut count,
    ) {
        Ok(_) => compare(rt, turns.as_slice(), &count),
        Err(refusal) => told(rt, book.as_slice(), refusal),
    }
}
