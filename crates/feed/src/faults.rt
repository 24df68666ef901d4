// What a feed holds: sound lines, and faults.
ghost use Rattle.std.specs.Prelude.{◌≡◌, Some};
ghost use Rattle.feed.specs.Faults.{fault_number, fault_field, fault_numbers, fault_words};

use crate::fields::Field;
use crate::lines::Line;
use std::fmt;

// Why an item is no sound line, with the field where it has one.
#[derive(Clone, Copy)]
pub enum FaultKind {
    ShortText,
    NoLineFeed,
    Malformed(Field),
    OverLimit(Field),
    FewWords,
}

// A fault, the station whose feed has it, and its number among the items of that feed.
#[derive(Clone, Copy)]
pub struct Fault {
    pub kind: FaultKind,
    pub station: u16,
    pub item: u64,
}

// What waits in a feed. (It has a Result's shape, but a fault that waits is no failure of the feed that shows it.)
#[derive(Clone, Copy)]
pub enum Item {
    Sound(Line),
    Faulty(Fault),
}

// A fault as it is reported: its number, its station, its item, and its field, 0 where it has none.
// (Those who are told of faults know kinds and fields by these numbers.)
#[derive(Clone, Copy)]
pub struct FaultNumbers {
    pub number: u8,
    pub station: u16,
    pub item: u64,
    pub field: u8,
}

impl FaultKind {
    fn number(self) -> u8
        ensures { result ≡ fault_number self }
    {
        match self {
            FaultKind::ShortText => 21,
            FaultKind::NoLineFeed => 22,
            FaultKind::Malformed(_) => 23,
            FaultKind::OverLimit(_) => 24,
            FaultKind::FewWords => 25,
        }
    }

    // The field that the fault names, if it names one.
    pub fn field(self) -> Option<Field>
        ensures { result ≡ fault_field self }
    {
        match self {
            FaultKind::Malformed(field) | FaultKind::OverLimit(field) => Some(field),
            FaultKind::ShortText | FaultKind::NoLineFeed | FaultKind::FewWords => None,
        }
    }

    // The fault in words.
    pub fn words(self) -> &'static str
        ensures { result.now ≡ fault_words self }
    {
        match self {
            FaultKind::ShortText => "short text item",
            FaultKind::NoLineFeed => "no line feed at the end",
            FaultKind::Malformed(_) => "malformed field",
            FaultKind::OverLimit(_) => "field over its limit",
            FaultKind::FewWords => "fewer than four words",
        }
    }
}

impl fmt::Display for FaultKind {
    ghost output = { λ kind. Some (fault_words kind) };

    fn fmt<W: fmt::Write>(&self, f: &mut fmt::Formatter<W>) -> fmt::Result {
        f.write_str(self.words())
    }
}

impl Fault {
    // The fault by its numbers.
    pub fn numbers(self) -> FaultNumbers
        ensures { result ≡ fault_numbers self }
    {
        FaultNumbers {
            number: self.kind.number(),
            station: self.station,
            item: self.item,
            field: self.kind.field().map_or(0, Field::number),
        }
    }
}
