// Making a report item by item.
ghost use Rattle.std.specs.Prelude.{List, [], ◌∷◌, ◌++◌, MatchResult};
ghost use Rattle.feed.specs.declared.faults.Item.{Item};
ghost use Rattle.report.specs.Reported.{Reports};

use crate::reports::Report;
use feed::faults::{Fault, Item};
use feed::lines::Line;
use std::alloc::{AllocError, Global};

impl Report {
    // The report on no item.
    pub fn new(heap: Global) -> Report
        ensures { Reports [] result }
    {
        Report {
            sound: 0,
            first_time: None,
            last_time: None,
            faults: Vec::new(heap),
        }
    }

    // The report grows by a sound line.
    fn note_line(&mut self, line: Line)
        ensures { (xs : List Item) → Reports xs self.old → Reports (xs ++ (Item.Sound line ∷ [])) self.new }
    {
        self.sound = self.sound.saturating_add(1);
        self.first_time = self.first_time.or(Some(line.time));
        self.last_time = Some(line.time);
    }

    // The report grows by a fault; where there is no memory for it the report stays as it is.
    fn note_fault(&mut self, fault: Fault) -> Result<(), AllocError>
        ensures { (xs : List Item) → Reports xs self.old → MatchResult result (λ _. Reports (xs ++ (Item.Faulty fault ∷ [])) self.new) (λ _. Reports xs self.new) }
    {
        self.faults.push(fault)?;
        Ok(())
    }

    // The report grows by one item; where there is no memory for a fault it stays as it is.
    pub fn note(&mut self, item: Item) -> Result<(), AllocError>
        ensures { (xs : List Item) → Reports xs self.old → MatchResult result (λ _. Reports (xs ++ (item ∷ [])) self.new) (λ _. Reports xs self.new) }
    {
        match item {
            Item::Sound(line) => {
                self.note_line(line);
                Ok(())
            }
            Item::Faulty(fault) => self.note_fault(fault),
        }
    }
}
