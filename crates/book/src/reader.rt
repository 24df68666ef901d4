// Takes the tokens of a text one at a time, as terminals.
ghost use Rattle.std.specs.Prelude.{◌≡◌, false};
ghost use Rattle.tokens.specs.Tokens.{ahead, AtEnd};
ghost use Rattle.book.specs.Text.{lexemes};
ghost use Rattle.book.specs.Readers.{coming, Next, Told, is_end, only_items};

use crate::refusals::{Fault, Reason};
use crate::terminals::{Seen, Terminal};
use std::alloc::Global;
use tokens::cursor;
use tokens::source::Cursor;

// Where the reader of a book stands in its text, and where it finds memory.
#[derive(Drop)]
pub(crate) struct Reader<'a> {
    pub(crate) heap: Global,
    pub(crate) cursor: Cursor<'a>,
}

impl<'a> Reader<'a> {
    // At the first token of a text.
    pub(crate) fn new(heap: Global, text: &'a [u8]) -> Reader<'a>
        ensures { coming result ≡ lexemes text.now }
    {
        let cursor = cursor::start(text);
        Reader { heap, cursor }
    }

    // Whether no token is left. What lies ahead stays.
    pub(crate) fn at_end(&mut self) -> bool
        ensures { AtEnd (ahead self.old.cursor) result (ahead self.new.cursor) }
    {
        cursor::at_end(&mut self.cursor)
    }

    // The next terminal; the end of the text stays ahead.
    pub(crate) fn next(&mut self) -> Result<Seen, Fault>
        ensures { Next (coming self.old) result (coming self.new) }
    {
        let found = cursor::next(&mut self.cursor);
        let place = found.place;
        // (No `map_err` with `?`: the terminal would be written in parts and read back whole, and a token takes longer.)
        match Terminal::try_from(found.token) {
            Ok(terminal) => Ok(Seen { terminal, place }),
            Err(reason) => Err(Fault { reason, place }),
        }
    }

    // The one terminal that may stand here.
    pub(crate) fn expect(&mut self, expected: Terminal) -> Result<(), Fault>
        requires { is_end expected ≡ false }
        ensures { Told (Unit {0}) (only_items expected) (coming self.old) result (coming self.new) }
    {
        let seen = self.next()?;
        if seen.terminal == expected {
            return Ok(());
        }
        Err(seen.fault(Reason::NotAllowed))
    }
}
