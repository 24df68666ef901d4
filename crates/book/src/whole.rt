// Reads a whole text.
ghost use Rattle.std.specs.Prelude.{◌≡◌};
ghost use Rattle.book.specs.Whole.{ToldRules, Answered};
ghost use Rattle.book.specs.Readers.{coming};

use crate::book::Book;
use crate::places::{Nodes, Place};
use crate::reader::Reader;
use crate::refusals::{Fault, Reason, Refusal};
use crate::rules::Rule;
use crate::terminals::Terminal;
use std::alloc::Global;

// The most bytes that a book text may have.
const BYTES: usize = 8192;

impl Reader<'_> {
    // The rules up to the end of the text, each with its `;`.
    fn read_rules(&mut self) -> Result<Vec<Rule>, Refusal>
        ensures { ToldRules (coming self.old) result }
    {
        let mut rules = Vec::new(self.heap);
        let mut nodes = Nodes { begun: 0 };
        while !self.at_end() {
            let mut place = Place::top(rules.len() + 1);
            let rule = self.read_rule(&mut place, &mut nodes)?;
            self.expect(Terminal::Semicolon)?;
            rules.push(rule)?;
        }
        Ok(rules)
    }
}

// The book that a text is, or the first fault of the text.
pub fn read_book(heap: Global, text: &[u8]) -> Result<Book, Refusal>
    ensures { Answered text.now result }
{
    if text.len() > BYTES {
        let fault = Fault {
            reason: Reason::TooLong,
            place: 0,
        };
        return Err(fault.into());
    }
    let rules = Reader::new(heap, text).read_rules()?;
    Ok(Book::of(rules))
}
