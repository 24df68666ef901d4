// What a rule may begin with.
ghost use Rattle.std.specs.Prelude.{◌≡◌, ◌≢◌, MatchOption};
ghost use Rattle.book.specs.Nodes.{opening_terminal};

use crate::terminals::Terminal;
use crate::terms::{DutyKind, TriggerKind};

// What a rule begins with: `must` or `mustnot`, `each` or `once`, or `(`.
#[derive(Clone, Copy)]
pub(crate) enum Opening {
    Duty(DutyKind),
    Trigger(TriggerKind),
    Bracket,
}

impl Opening {
    // What a rule that begins with this terminal is. No `TryFrom`: all other terminals have one reason, so an error says no more than `None`.
    pub(crate) fn of(terminal: Terminal) -> Option<Opening>
        ensures { MatchOption result ((o : Opening) → terminal ≢ opening_terminal o) (λ o. terminal ≡ opening_terminal o) }
    {
        match terminal {
            Terminal::Duty(kind) => Some(Opening::Duty(kind)),
            Terminal::Trigger(kind) => Some(Opening::Trigger(kind)),
            Terminal::Open => Some(Opening::Bracket),
            _ => None,
        }
    }
}
