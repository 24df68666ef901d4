// Reads a condition and its parts. A part, a sum and a condition end where the next token does not go on with them, so their readers take that token too.
ghost use Rattle.std.specs.Prelude.{◌≡◌, ◌+◌};
ghost use Rattle.std.specs.Result.{result_err};
ghost use Rattle.book.specs.Grammar.{counts, uses, part_items, sum_items, condition_items};
ghost use Rattle.book.specs.Faults.{role_fault};
ghost use Rattle.book.specs.Parts.{letter_items, PartStops, SumStops, ConditionStops};
ghost use Rattle.book.specs.Readers.{coming, Told, ToldNext};

use crate::reader::Reader;
use crate::refusals::{Fault, Reason};
use crate::sets::Letters;
use crate::terminals::{Seen, Terminal};
use crate::terms::{Condition, Letter, Part, Sum};

// The most conditions that a pattern may have.
const CONDITIONS: usize = 4;

// What a part's limit and scope are told by: the number of its condition in the pattern, from 1, and the letters that are bound there.
#[derive(Clone, Copy)]
pub(crate) struct Scope {
    pub(crate) number: usize,
    pub(crate) bound: Letters,
}

impl Scope {
    // Whether a number may stand here.
    fn check_number(self) -> Result<(), Reason>
        ensures { result_err result ≡ role_fault (counts self.number) }
    {
        if self.number > CONDITIONS {
            return Err(Reason::PastLimit);
        }
        Ok(())
    }

    // Whether a letter may stand here.
    fn check_letter(self, letter: Letter) -> Result<(), Reason>
        ensures { result_err result ≡ role_fault (uses self.number self.bound letter) }
    {
        self.check_number()?;
        if !self.bound.has(letter) {
            return Err(Reason::Unbound);
        }
        Ok(())
    }
}

impl Reader<'_> {
    // A letter in a condition.
    fn read_letter(&mut self, scope: Scope) -> Result<Letter, Fault>
        ensures { Told Letter (letter_items scope.number scope.bound) (coming self.old) result (coming self.new) }
    {
        let seen = self.next()?;
        let Terminal::Lettered(letter) = seen.terminal else {
            return Err(seen.fault(Reason::NotAllowed));
        };
        scope
            .check_letter(letter)
            .map_err(|reason| seen.fault(reason))?;
        Ok(letter)
    }

    // What a part of a condition begins with, a number or a letter.
    fn read_lead(&mut self, scope: Scope) -> Result<Part, Fault>
        ensures { Told Part (part_items scope.number scope.bound) (coming self.old) result (coming self.new) }
    {
        let seen = self.next()?;
        match seen.terminal {
            Terminal::Numeral(number) => {
                scope.check_number().map_err(|reason| seen.fault(reason))?;
                Ok(Part::Number(number))
            }
            Terminal::Lettered(letter) => {
                scope
                    .check_letter(letter)
                    .map_err(|reason| seen.fault(reason))?;
                Ok(Part::Bound(letter))
            }
            _ => Err(seen.fault(Reason::NotAllowed)),
        }
    }

    // A part of a condition, and the token after it.
    fn read_part(&mut self, scope: Scope) -> Result<(Part, Seen), Fault>
        ensures { ToldNext Part (part_items scope.number scope.bound) PartStops (coming self.old) result (coming self.new) }
    {
        let lead = self.read_lead(scope)?;
        let seen = self.next()?;
        let Part::Number(number) = lead else {
            return Ok((lead, seen));
        };
        let Terminal::Times = seen.terminal else {
            return Ok((lead, seen));
        };
        let letter = self.read_letter(scope)?;
        let after = self.next()?;
        Ok((Part::Product(number, letter), after))
    }

    // A sum in a condition, and the token after it: one to three parts.
    fn read_sum(&mut self, scope: Scope) -> Result<(Sum, Seen), Fault>
        ensures { ToldNext Sum (sum_items scope.number scope.bound) SumStops (coming self.old) result (coming self.new) }
    {
        let (first, plus) = self.read_part(scope)?;
        // (By patterns, here and in a part: `!=` reads the terminal back from memory that was just written in parts.)
        let Terminal::Plus = plus.terminal else {
            return Ok((Sum::One(first), plus));
        };
        let (second, more) = self.read_part(scope)?;
        let Terminal::Plus = more.terminal else {
            return Ok((Sum::Two(first, second), more));
        };
        let (third, after) = self.read_part(scope)?;
        Ok((Sum::Three(first, second, third), after))
    }

    // A condition, and the token after it.
    pub(crate) fn read_condition(&mut self, scope: Scope) -> Result<(Condition, Seen), Fault>
        ensures { ToldNext Condition (condition_items scope.number scope.bound) ConditionStops (coming self.old) result (coming self.new) }
    {
        let (left, compare) = self.read_sum(scope)?;
        let Terminal::Compare(sign) = compare.terminal else {
            return Err(compare.fault(Reason::NotAllowed));
        };
        let (right, after) = self.read_sum(scope)?;
        Ok((Condition { left, sign, right }, after))
    }
}
