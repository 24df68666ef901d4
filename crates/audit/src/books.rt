// `audit book BOOK`: a listing of an accepted book, or why and where the text is refused.
use crate::files::bytes_of;
use crate::listing::rule_rows;
use crate::{Status, misused};
use anyhow::anyhow;
use book::book::Book;
use book::refusals::{Fault, Reason, Refusal};
use book::whole::read_book;
use std::alloc::{AllocError, Global};

// The reason in words. (`Reason` is the book's type: a `Display` here would need a type around it, and no place to
// write to is needed.)
fn words(reason: Reason) -> &'static str {
    match reason {
        Reason::TooLong => "the text has more than 8,192 bytes",
        Reason::NoToken => "these bytes form no token",
        Reason::BadNumber => "the number is above 9,999,999 or has a leading zero",
        Reason::NotAllowed => "this token may not stand here",
        Reason::PastLimit => "a rule, node or condition past its limit begins here",
        Reason::Twice => "the field or letter stands in this list already",
        Reason::Unbound => "the letter is not bound here",
    }
}

// Where the line with the place starts: behind the last line feed before it.
fn line_start(text: &[u8], place: usize) -> usize {
    let before = text.get(0..place).unwrap_or(text);
    before
        .iter()
        .rposition(|byte| *byte == b'\n')
        .map_or(0, |at| at.saturating_add(1))
}

// The bytes of that line as text; what is no ASCII character that can be shown is a question mark.
fn line_text(heap: Global, text: &[u8], start: usize) -> Result<String, AllocError> {
    text.iter()
        .skip(start)
        .take_while(|byte| **byte != b'\n')
        .map(|byte| if matches!(*byte, b' '..=b'~') {
            *byte as char
        } else {
            '?'
        })
        .collect(heap)
}

// The refusal on standard error: number and place, the reason, and the line with a caret under the place.
fn print_refusal(rt: &HostRuntime, text: &[u8], fault: Fault) -> anyhow::Result<()> {
    let number = fault.reason.number();
    let place = fault.place;
    eprintln!(rt; "book refused {number} at {place}")?;
    eprintln!(rt; "{}", words(fault.reason))?;
    let start = line_start(text, place);
    eprintln!(rt; "{}", line_text(rt.alloc(), text, start)?)?;
    let indent = place.saturating_sub(start);
    eprintln!(rt; "{:indent$}^", "")?;
    Ok(())
}

fn print_book(rt: &HostRuntime, book: &Book) -> anyhow::Result<()> {
    for (number, rule) in (1u32..).zip(book.rules()) {
        println!(rt; "rule {number}")?;
        rt.print(rule_rows(rt.alloc(), rule)?)?;
    }
    Ok(())
}

// Says on standard error why a text is refused.
pub fn told(rt: &HostRuntime, text: &[u8], refusal: Refusal) -> anyhow::Result<Status> {
    match refusal {
        Refusal::NoMemory => Err(anyhow!("no memory for the book")),
        Refusal::Faulty(fault) => {
            print_refusal(rt, text, fault)?;
            Ok(Status::Refused)
        }
    }
}

// The listing of the book, or its refusal.
pub fn list_book(rt: &HostRuntime, paths: &[String]) -> anyhow::Result<Status> {
    let [path] = paths else {
        return misused(rt);
    };
    let text = bytes_of(rt, path.as_str())?;
    match read_book(rt.alloc(), text.as_slice()) {
        Ok(book) => {
            print_book(rt, &book)?;
            Ok(Status::Success)
        }
        Err(refusal) => {
            told(rt, text.as_slice(), refusal)?;
            Err(anyhow!("the book is refused"))
        }
    }
}
