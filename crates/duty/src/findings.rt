// What is found of the rules of a book after some lines.
ghost use Rattle.std.specs.Prelude.{◌≡◌, ◌≤◌, [], IfOk, vec_capacity};
ghost use Rattle.duty.specs.Drafts.{Drafted};
ghost use Rattle.duty.specs.Standings.{Blank};

use crate::drafts::Draft;
use crate::verdicts::Verdict;
use std::alloc::{AllocError, Global};

// The verdict of each rule, in order, and the sheet of what is open.
#[derive(Drop)]
pub(crate) struct Findings {
    pub verdicts: Vec<Verdict>,
    pub sheet: Draft,
}

impl Findings {
    // Nothing found so far, with room for so many rules: what comes after asks for no memory.
    pub(crate) fn new(heap: Global, rules: usize) -> Result<Findings, AllocError>
        ensures { IfOk result (λ f. (rules ≤ vec_capacity f.verdicts) × Blank f) }
    {
        let verdicts = Vec::with_capacity(heap, rules)?;
        let sheet = Draft::new(heap)?;
        Ok(Findings { verdicts, sheet })
    }

    pub(crate) fn clear(&mut self)
        ensures blank { Blank self.new }
        ensures capacity { vec_capacity self.new.verdicts ≡ vec_capacity self.old.verdicts }
    {
        self.verdicts.clear();
        self.sheet.clear();
    }
}
