// Making an auditor, and opening it on a book.
ghost use Rattle.std.specs.Prelude.{[], IfOk};
ghost use Rattle.duty.specs.Standings.{book_rules};
ghost use Rattle.auditor.specs.Holds.{Holds};
ghost use Rattle.auditor.specs.Opening.{Opens};

use crate::auditors::Auditor;
use book::book::Book;
use book::refusals::Refusal;
use book::whole::read_book;
use duty::standings::Standing;
use std::alloc::{AllocError, Global};

impl Auditor {
    // An auditor with the book and an empty log, or want of memory.
    fn begin(heap: Global, book: Book) -> Result<Auditor, AllocError>
        ensures { IfOk result (λ a. Holds (book_rules book) [] a) }
    {
        let standing = Standing::open(heap, book)?;
        Ok(Auditor {
            standing,
            lines: 0,
            last: 0,
        })
    }

    // An auditor with the empty book and an empty log, or want of memory.
    pub fn new(heap: Global) -> Result<Auditor, AllocError>
        ensures { IfOk result (λ a. Holds [] [] a) }
    {
        Auditor::begin(heap, Book::empty(heap))
    }

    // Replaces the book by the one that the text is and the log by an empty one; or refuses, and nothing changes.
    pub fn open(&mut self, heap: Global, text: &[u8]) -> Result<(), Refusal>
        ensures { Opens text.now result self.old self.new }
    {
        let book = read_book(heap, text)?;
        *self = Auditor::begin(heap, book)?;
        Ok(())
    }
}
