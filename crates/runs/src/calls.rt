// Calls, and what is answered to them.
ghost use Rattle.std.specs.Prelude.{◌≡◌};
ghost use Rattle.runs.specs.Answers.{answer_refusal, answer_count, answer_numbers};

use auditor::answers::{Refusal, Taken};
use feed::faults::FaultNumbers;

// A call on an auditor and its feeds, which are numbered from 0.
#[derive(Clone, Copy, Debug, PartialEq, Eq)]
pub enum Call {
    Take { feed: usize, count: u32 },
    Skip { feed: usize },
    VerdictPage,
    SheetPage,
}

#[derive(Clone, Copy)]
pub enum Answer {
    Took(Taken),
    Skipped(Result<(), Refusal>),
    Paged(Result<usize, Refusal>),
}

// An answer by its numbers: the lines taken or the page's length, and what is told of a refusal.
#[derive(Clone, Copy)]
pub struct AnswerNumbers {
    pub count: usize,
    pub refusal: Option<FaultNumbers>,
}

impl Answer {
    // The refusal, where the call was refused.
    fn refusal(self) -> Option<Refusal>
        ensures { result ≡ answer_refusal self }
    {
        match self {
            Answer::Took(taken) => taken.stop.refusal(),
            Answer::Skipped(result) => result.err(),
            Answer::Paged(result) => result.err(),
        }
    }

    fn count(self) -> usize
        ensures { result ≡ answer_count self }
    {
        match self {
            Answer::Took(taken) => taken.lines as usize,
            Answer::Skipped(_) => 0,
            Answer::Paged(length) => length.unwrap_or(0),
        }
    }

    // The answer by its numbers.
    pub fn numbers(self) -> AnswerNumbers
        ensures { result ≡ answer_numbers self }
    {
        AnswerNumbers {
            count: self.count(),
            refusal: self.refusal().map(Refusal::numbers),
        }
    }
}

// One of two auditors.
#[derive(Clone, Copy, Debug, PartialEq, Eq)]
pub enum Side {
    First,
    Second,
}

// A call at one of two auditors, with the buffer for a page and, once it is made, its answer.
#[derive(Drop)]
pub struct Turn {
    pub side: Side,
    pub call: Call,
    pub buffer: Vec<u8>,
    pub answer: Option<Answer>,
}
