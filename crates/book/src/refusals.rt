// Why a text is refused.
ghost use Rattle.std.specs.Prelude.{◌≡◌};
ghost use Rattle.book.specs.Refusals.{reason_number};
ghost use Rattle.book.specs.declared.refusals.Refusal.TheVariants.{Faulty, NoMemory};

use std::alloc::{AllocError, AllocFailed};

#[derive(Clone, Copy, Debug, PartialEq, Eq)]
pub enum Reason {
    // the text has more than 8,192 bytes
    TooLong = 1,
    // bytes that form no token
    NoToken,
    // a number that is too large or has a leading zero
    BadNumber,
    // a token that is not allowed there
    NotAllowed,
    // a rule, node or condition past a limit
    PastLimit,
    // a field or letter twice in one binder list
    Twice,
    // a letter that is not bound there
    Unbound,
}

impl Reason {
    // The number by which the rule writer is told the reason.
    pub fn number(self) -> u8
        ensures { result ≡ reason_number self }
    {
        self as u8
    }
}

// A reason with its place, the count of bytes before the token at fault.
#[derive(Clone, Copy, Debug, PartialEq, Eq)]
pub struct Fault {
    pub reason: Reason,
    pub place: usize,
}

// Why no book was read: the text's first fault, or want of memory.
#[derive(Clone, Copy, Debug, PartialEq, Eq)]
pub enum Refusal {
    Faulty(Fault),
    NoMemory,
}

impl From<Fault> for Refusal {
    ghost from_gives = { λ e r. r ≡ Faulty e };

    fn from(fault: Fault) -> Refusal {
        Refusal::Faulty(fault)
    }
}

// What found no memory is let go.
impl<T: Drop> From<AllocFailed<T>> for Refusal {
    ghost from_gives = { λ _ r. r ≡ NoMemory };

    fn from(_refused: AllocFailed<T>) -> Refusal {
        Refusal::NoMemory
    }
}

impl From<AllocError> for Refusal {
    ghost from_gives = { λ _ r. r ≡ NoMemory };

    fn from(_refused: AllocError) -> Refusal {
        Refusal::NoMemory
    }
}
