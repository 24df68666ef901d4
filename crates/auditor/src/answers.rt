// What the calls on an auditor answer.
ghost use Rattle.std.specs.Prelude.{◌≡◌, Some};
ghost use Rattle.auditor.specs.Answers.{alone as alone_numbers, refusal_numbers, refusal_words, stop_refusal};
ghost use Rattle.auditor.specs.declared.answers.Refusal.TheVariants.{SheetFull};
ghost use Rattle.auditor.specs.declared.answers.Stop.TheVariants.{Refused};

use duty::standings;
use feed::faults::{Fault, FaultNumbers};
use std::fmt;

// Why a call was refused.
#[derive(Clone, Copy)]
pub enum Refusal {
    // the first waiting item is no sound line
    Faulty(Fault),
    // the line's time is below that of the last line taken
    Backdated,
    // with the line the sheet would need more than 256 places
    SheetFull,
    // the log has 1,000,000 lines
    LogFull,
    // a take of fewer than 1 or more than 4,096 lines
    Count,
    // the buffer is shorter than the page
    ShortBuffer,
    // a skip where nothing waits
    NothingWaits,
}

// A number with no station, item or field.
fn alone(number: u8) -> FaultNumbers
    ensures { result ≡ alone_numbers number }
{
    FaultNumbers {
        number,
        station: 0,
        item: 0,
        field: 0,
    }
}

impl Refusal {
    // The refusal by its numbers. (Those who are told of refusals know them by these.)
    pub fn numbers(self) -> FaultNumbers
        ensures { result ≡ refusal_numbers self }
    {
        match self {
            Refusal::Faulty(fault) => fault.numbers(),
            Refusal::Backdated => alone(31),
            Refusal::SheetFull => alone(32),
            Refusal::LogFull => alone(33),
            Refusal::Count => alone(41),
            Refusal::ShortBuffer => alone(42),
            Refusal::NothingWaits => alone(43),
        }
    }

    // The reason in words.
    pub fn words(self) -> &'static str
        ensures { result.now ≡ refusal_words self }
    {
        match self {
            Refusal::Faulty(fault) => fault.kind.words(),
            Refusal::Backdated => "the time is below that of the last line taken",
            Refusal::SheetFull => "with this line the sheet would need more than 256 places",
            Refusal::LogFull => "the log has 1,000,000 lines",
            Refusal::Count => "a take is of 1 to 4,096 lines",
            Refusal::ShortBuffer => "the buffer is shorter than the page",
            Refusal::NothingWaits => "nothing waits to be skipped",
        }
    }
}

impl fmt::Display for Refusal {
    ghost output = { λ refusal. Some (refusal_words refusal) };

    fn fmt<W: fmt::Write>(&self, f: &mut fmt::Formatter<W>) -> fmt::Result {
        f.write_str(self.words())
    }
}

impl From<standings::SheetFull> for Refusal {
    ghost from_gives = { λ _ r. r ≡ SheetFull };

    fn from(_full: standings::SheetFull) -> Refusal {
        Refusal::SheetFull
    }
}

// Why a take stopped: it has taken what was asked, nothing waits, or it was refused.
#[derive(Clone, Copy)]
pub enum Stop {
    Done,
    Dry,
    Refused(Refusal),
}

impl Stop {
    // The refusal, where it was one.
    pub fn refusal(self) -> Option<Refusal>
        ensures { result ≡ stop_refusal self }
    {
        match self {
            Stop::Done | Stop::Dry => None,
            Stop::Refused(refusal) => Some(refusal),
        }
    }
}

impl From<Refusal> for Stop {
    ghost from_gives = { λ refusal stop. stop ≡ Refused refusal };

    fn from(refusal: Refusal) -> Stop {
        Stop::Refused(refusal)
    }
}

// How many lines a take took, and why it stopped.
#[derive(Clone, Copy)]
pub struct Taken {
    pub lines: u32,
    pub stop: Stop,
}
