// Opening a standing, and taking a line.
ghost use Rattle.std.specs.Prelude.{◌≡◌, suc, ◌+◌, ◌≤◌, List, [], ◌∷◌, ◌++◌, length, IfOk, vec_len, vec_capacity};
ghost use Rattle.feed.specs.declared.lines.Line.{Line};
ghost use Rattle.duty.specs.Sheet.{Fits};
ghost use Rattle.duty.specs.Judging.{JudgesAll};
ghost use Rattle.duty.specs.Standings.{book_rules, Opened, Stands, Taken, Kept, rules_of, verdicts_of, sheet_of};

use crate::drafts::PLACES;
use crate::entries::Entry;
use crate::findings::Findings;
use crate::judging::{judge_rules, open_rules};
use crate::kinds::Kinds;
use crate::standings::{SheetFull, Standing, State};
use crate::verdicts::Verdict;
use book::book::Book;
use feed::lines::Line;
use std::alloc::{AllocError, Global};

impl State {
    // Writes what is found after one more line.
    fn judge(&self, line: &Line, number: u32, next: &mut Findings)
        requires { vec_len next.old.verdicts + vec_len self.now.book.rules ≤ vec_capacity next.old.verdicts }
        ensures len { vec_len next.new.verdicts ≡ vec_len next.old.verdicts + vec_len self.now.book.rules }
        ensures capacity { vec_capacity next.new.verdicts ≡ vec_capacity next.old.verdicts }
        ensures all { JudgesAll (book_rules self.now.book) self.now.findings.verdicts.items self.now.findings.sheet.entries.items line.now number next.old.verdicts.items next.old.sheet next.new.verdicts.items next.new.sheet }
    {
        let rules = self.book.rules();
        judge_rules(rules, &self.each, &self.findings, line, number, next);
    }
}

impl Standing {
    // The rules of a book before any line, or want of memory.
    pub fn open(heap: Global, book: Book) -> Result<Standing, AllocError>
        ensures { IfOk result (λ s. Opened book s) }
    {
        let rules = book.rules();
        let kinds = Kinds::of_rules(rules);
        let each = Kinds::of_each(heap, rules)?;
        let mut findings = Findings::new(heap, rules.len())?;
        let next = Findings::new(heap, rules.len())?;
        open_rules(rules, &mut findings);
        let state = State {
            book,
            kinds,
            each,
            findings,
        };
        Ok(Standing { state, next })
    }

    // One more line, with its number in the log; or nothing changes, where the sheet after the whole line would
    // need more than 256 places. A line whose kind concerns no rule changes nothing either.
    pub fn step(&mut self, line: &Line, number: u32) -> Result<(), SheetFull>
        ensures rules { rules_of self.new ≡ rules_of self.old }
        ensures taken { (log : List Line) → suc (length log) ≡ number → Stands self.old log → Taken result self.new (log ++ (line.now ∷ [])) }
        ensures kept { Kept result self.old self.new }
    {
        if !self.state.kinds.has(line.kind) {
            return Ok(());
        }
        self.next.clear();
        self.state.judge(line, number, &mut self.next);
        if self.next.sheet.count() > PLACES {
            return Err(SheetFull);
        }
        std::mem::swap(&mut self.state.findings, &mut self.next);
        Ok(())
    }

    // The verdicts of the rules, in order.
    pub fn verdicts(&self) -> &[Verdict]
        ensures value { result.now ≡ verdicts_of self.now }
        ensures len { length result.now ≡ length (rules_of self.now) }
    {
        &self.state.findings.verdicts
    }

    // The open sheet.
    pub fn sheet(&self) -> &[Entry]
        ensures value { result.now ≡ sheet_of self.now }
        ensures fits { Fits result.now }
    {
        &self.state.findings.sheet.entries
    }
}
