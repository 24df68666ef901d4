// A report in words.
ghost use Rattle.std.specs.Prelude.{◌≡◌, IfOk, Some, string_bytes};
ghost use Rattle.report.specs.Rows.{time_text, summary_text, field_text, fault_text};

use crate::reports::Report;
use feed::faults::{Fault, FaultNumbers};
use feed::fields::Field;
use std::alloc::{AllocError, Global};
use std::fmt;

// A time, or that there is none.
#[derive(Clone, Copy)]
struct Time(Option<u32>);

impl fmt::Display for Time {
    ghost output = { λ time. Some (time_text time.0) };

    fn fmt<W: fmt::Write>(&self, f: &mut fmt::Formatter<W>) -> fmt::Result {
        match self.0 {
            Some(minute) => write!(f, "{minute}"),
            None => f.write_str("none"),
        }
    }
}

// The field that a fault names, by number and name.
#[derive(Clone, Copy)]
pub struct Named(pub Option<Field>);

impl fmt::Display for Named {
    ghost output = { λ named. Some (field_text named.0) };

    fn fmt<W: fmt::Write>(&self, f: &mut fmt::Formatter<W>) -> fmt::Result {
        match self.0 {
            Some(field) => {
                let number = field.number();
                write!(f, "field {number} {field}")
            }
            None => f.write_str("no field"),
        }
    }
}

// The first lines of a report: sound lines, first and last time, and how many faults follow, a line each.
pub fn summary(heap: Global, report: &Report) -> Result<String, AllocError>
    ensures { IfOk result (λ s. string_bytes s ≡ summary_text report.now) }
{
    let sound = report.sound();
    let first = Time(report.first_time());
    let last = Time(report.last_time());
    let faults = report.faults().len();
    format!(in heap;
        "sound lines: {sound}\nfirst time: {first}\nlast time: {last}\nfaults: {faults}\n"
    )
}

// A fault's row: its number and words, its station, its item, and its field if it names one.
pub fn fault_row(heap: Global, fault: Fault) -> Result<String, AllocError>
    ensures { IfOk result (λ s. string_bytes s ≡ fault_text fault) }
{
    let kind = fault.kind;
    let field = Named(kind.field());
    let FaultNumbers {
        number,
        station,
        item,
        ..
    } = fault.numbers();
    format!(in heap; "{number} {kind}: station {station}, item {item}, {field}\n")
}
