// Reads patterns.
ghost use Rattle.std.specs.Prelude.{◌≡◌, ◌≢◌, MatchOption};
ghost use Rattle.book.specs.Rules.{Pattern as PatternMeant};
ghost use Rattle.book.specs.Grammar.{pattern_items};
ghost use Rattle.book.specs.Patterns.{field_items, operand_items, closer, more_closed, binders_closed, ToldBinders, ToldConditions};
ghost use Rattle.book.specs.Readers.{coming, Told, ToldBy};
ghost use Rattle.book.specs.Trees.{pure_pattern};

use crate::parts::Scope;
use crate::reader::Reader;
use crate::refusals::{Fault, Reason, Refusal};
use crate::rules::Pattern;
use crate::sets::{Fields, Letters};
use crate::terminals::Terminal;
use crate::terms::{Binder, Condition, Letter, Operand};
use feed::fields::Field;

// What ends a list of binders: the `if` before conditions, or the pattern's end.
#[derive(Clone, Copy)]
pub(crate) enum Ending {
    Conditions,
    Pattern,
}

impl Ending {
    // Which ending a terminal is. No `TryFrom`: all other terminals have one reason, so an error says no more than `None`.
    fn of(terminal: Terminal) -> Option<Ending>
        ensures { MatchOption result ((b : Ending) → terminal ≢ closer b) (λ b. terminal ≡ closer b) }
    {
        match terminal {
            Terminal::If => Some(Ending::Conditions),
            Terminal::CloseSquare => Some(Ending::Pattern),
            _ => None,
        }
    }
}

impl Reader<'_> {
    // A field, which may not be one of `fields`.
    fn read_field(&mut self, fields: Fields) -> Result<Field, Fault>
        ensures { Told Field (field_items fields) (coming self.old) result (coming self.new) }
    {
        let seen = self.next()?;
        let Terminal::Named(field) = seen.terminal else {
            return Err(seen.fault(Reason::NotAllowed));
        };
        if fields.has(field) {
            return Err(seen.fault(Reason::Twice));
        }
        Ok(field)
    }

    // A number, or a letter that may not be one of `letters`.
    fn read_operand(&mut self, letters: Letters) -> Result<Operand, Fault>
        ensures { Told Operand (operand_items letters) (coming self.old) result (coming self.new) }
    {
        let seen = self.next()?;
        match seen.terminal {
            Terminal::Numeral(number) => Ok(Operand::Number(number)),
            Terminal::Lettered(letter) => {
                if letters.has(letter) {
                    return Err(seen.fault(Reason::Twice));
                }
                Ok(Operand::Bound(letter))
            }
            _ => Err(seen.fault(Reason::NotAllowed)),
        }
    }

    // The binders after `fields` and `letters`, each behind a comma, and what ends them.
    fn read_more_binders(
        &mut self,
        mut fields: Fields,
        mut letters: Letters,
        out: &mut Vec<Binder>,
    ) -> Result<Ending, Refusal>
        ensures { ToldBinders (more_closed fields letters) (coming self.old) result (coming self.new) out.old.items out.new.items }
    {
        loop {
            let seen = self.next()?;
            if seen.terminal != Terminal::Comma {
                return Ending::of(seen.terminal).ok_or(seen.fault(Reason::NotAllowed).into());
            }
            let field = self.read_field(fields)?;
            let operand = self.read_operand(letters)?;
            out.push(Binder { field, operand })?;
            fields = fields.with(field);
            letters = letters.with_operand(operand);
        }
    }

    // The binders of a pattern, and what ends them.
    fn read_binders(&mut self, out: &mut Vec<Binder>) -> Result<Ending, Refusal>
        ensures { ToldBinders binders_closed (coming self.old) result (coming self.new) out.old.items out.new.items }
    {
        let seen = self.next()?;
        let Terminal::Named(field) = seen.terminal else {
            return Ending::of(seen.terminal).ok_or(seen.fault(Reason::NotAllowed).into());
        };
        let operand = self.read_operand(Letters::none())?;
        out.push(Binder { field, operand })?;
        self.read_more_binders(
            Fields::none().with(field),
            Letters::none().with_operand(operand),
            out,
        )
    }

    // The conditions of a pattern, up to the `]`, where these letters are bound.
    fn read_conditions(&mut self, bound: Letters) -> Result<Vec<Condition>, Refusal>
        ensures { ToldConditions bound (coming self.old) result (coming self.new) }
    {
        let mut conditions = Vec::new(self.heap);
        loop {
            let number = conditions.len() + 1;
            let (condition, after) = self.read_condition(Scope { number, bound })?;
            conditions.push(condition)?;
            match after.terminal {
                Terminal::CloseSquare => return Ok(conditions),
                Terminal::Comma => (),
                _ => return Err(after.fault(Reason::NotAllowed).into()),
            }
        }
    }

    // A pattern, where `bound` are bound from outside.
    pub(crate) fn read_pattern(&mut self, bound: Letters) -> Result<Pattern, Refusal>
        ensures { ToldBy Pattern PatternMeant pure_pattern (pattern_items bound) (coming self.old) result (coming self.new) }
    {
        let seen = self.next()?;
        match seen.terminal {
            Terminal::Never => Ok(Pattern::Never),
            Terminal::OpenSquare => {
                let mut binders = Vec::new(self.heap);
                let ending = self.read_binders(&mut binders)?;
                let conditions = match ending {
                    Ending::Conditions => self.read_conditions(bound.with_binders(&binders))?,
                    Ending::Pattern => Vec::new(self.heap),
                };
                Ok(Pattern::Lines {
                    binders,
                    conditions,
                })
            }
            _ => Err(seen.fault(Reason::NotAllowed).into()),
        }
    }
}
