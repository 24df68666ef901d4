// What is printed of the turns of one auditor: their answers in one line, then the buffer of each page call.
use auditor::answers::{Refusal, Stop, Taken};
use feed::faults::FaultNumbers;
use runs::calls::{Answer, Call, Side, Turn};
use std::io::Write;
use std::{fmt, io};

// How an answer, or a part of one, is printed.
#[derive(Clone, Copy)]
struct Printed<T>(T);

// The number of a refusal, and of a fault also its station, item and field.
impl fmt::Display for Printed<Refusal> {
    fn fmt<W: fmt::Write>(&self, f: &mut fmt::Formatter<W>) -> fmt::Result {
        let FaultNumbers {
            number,
            station,
            item,
            field,
        } = self.0.numbers();
        match self.0 {
            Refusal::Faulty(_) => write!(f, "{number}:{station}:{item}:{field}"),
            _ => write!(f, "{number}"),
        }
    }
}

impl fmt::Display for Printed<Taken> {
    fn fmt<W: fmt::Write>(&self, f: &mut fmt::Formatter<W>) -> fmt::Result {
        let Taken { lines, stop } = self.0;
        match stop {
            Stop::Done => write!(f, "took:{lines}:done"),
            Stop::Dry => write!(f, "took:{lines}:dry"),
            Stop::Refused(refusal) => write!(f, "took:{lines}:{}", Printed(refusal)),
        }
    }
}

impl fmt::Display for Printed<Answer> {
    fn fmt<W: fmt::Write>(&self, f: &mut fmt::Formatter<W>) -> fmt::Result {
        match self.0 {
            Answer::Took(taken) => write!(f, "{}", Printed(taken)),
            Answer::Skipped(Ok(())) => f.write_str("skipped"),
            Answer::Skipped(Err(refusal)) => write!(f, "skip:{}", Printed(refusal)),
            Answer::Paged(Ok(length)) => write!(f, "page:{length}"),
            Answer::Paged(Err(refusal)) => write!(f, "page:{}", Printed(refusal)),
        }
    }
}

fn print_answers(rt: &HostRuntime, turns: &[Turn], side: Side) -> io::Result<()> {
    for turn in turns.iter().filter(|turn| turn.side == side) {
        match turn.answer {
            Some(answer) => print!(rt; " {}", Printed(answer))?,
            None => print!(rt; " none")?,
        }
    }
    println!(rt; "")
}

fn is_page(turn: &Turn) -> bool {
    matches!(turn.call, Call::VerdictPage | Call::SheetPage)
}

fn print_buffers(rt: &HostRuntime, turns: &[Turn], side: Side) -> io::Result<()> {
    for turn in turns
        .iter()
        .filter(|turn| turn.side == side && is_page(turn))
    {
        rt.stdout().write_all(turn.buffer.as_slice())?;
        println!(rt; "")?;
    }
    Ok(())
}

pub fn print_side(rt: &HostRuntime, turns: &[Turn], side: Side) -> io::Result<()> {
    match side {
        Side::First => print!(rt; "first:")?,
        Side::Second => print!(rt; "second:")?,
    }
    print_answers(rt, turns, side)?;
    print_buffers(rt, turns, side)
}
