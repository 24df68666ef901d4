// Answers each text of the input by its book's counts, or by its first fault: the texts are parted by the byte 30.
#![tactic(auto)]

use book::refusals::{Fault, Refusal};
use book::rules::Rule;
use book::whole::read_book;
use std::io;
use std::io::Read;

// The byte that parts two texts.
const PARTING: u8 = 30;

// How many nodes a rule has. (The count that stepping makes has eight bits, which a book's limits allow; this one asks for
// no limit.)
fn nodes(rule: &Rule) -> usize {
    match rule {
        Rule::Duty(_, _, _) => 1,
        Rule::Trigger(_, _, _, duty) => nodes(duty).saturating_add(1),
        Rule::Bracket(_, left, right) => nodes(left).saturating_add(nodes(right)).saturating_add(1),
    }
}

// One line: what the reader answers to a text.
fn answer(rt: &(impl Print + AllocGlobal), text: &[u8]) -> io::Result<()> {
    match read_book(rt.alloc(), text) {
        Ok(book) => {
            let rules = book.rules();
            let all = rules
                .iter()
                .fold(0usize, |all, rule| all.saturating_add(nodes(rule)));
            println!(rt; "ok {} {}", rules.len(), all)
        }
        Err(Refusal::Faulty(Fault { reason, place })) => println!(rt;
            "refused {} at {}",
            reason.number(),
            place
        ),
        Err(Refusal::NoMemory) => println!(rt; "no memory"),
    }
}

fn main(rt: HostRuntime) -> io::Result<()> {
    let mut texts = Vec::new(rt.alloc());
    rt.stdin().read_to_end(&mut texts)?;
    for text in texts.split_inclusive(|byte| *byte == PARTING) {
        answer(&rt, text.strip_suffix(&[PARTING]).unwrap_or(text))?;
    }
    Ok(())
}
