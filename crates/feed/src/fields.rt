// The six fields of a log line.
ghost use Rattle.std.specs.Prelude.{◌≡◌, Some};
ghost use Rattle.feed.specs.Limits.{limit, field_number, field_name};

use std::fmt;

#[derive(Clone, Copy, Debug, PartialEq, Eq)]
pub enum Field {
    Time,
    Kind,
    Machine,
    Crew,
    Run,
    Reading,
}

impl Field {
    // The largest value that the field may have.
    pub fn limit(self) -> u32
        ensures { result ≡ limit self }
    {
        match self {
            Field::Time => 9_999_999,
            Field::Kind => 999,
            Field::Machine => 9_999,
            Field::Crew => 9_999,
            Field::Run => 9_999,
            Field::Reading => 999_999,
        }
    }

    // The field's number, 1 to 6, as a fault report gives it.
    pub fn number(self) -> u8
        ensures { result ≡ field_number self }
    {
        match self {
            Field::Time => 1,
            Field::Kind => 2,
            Field::Machine => 3,
            Field::Crew => 4,
            Field::Run => 5,
            Field::Reading => 6,
        }
    }

    // The field's name.
    pub fn name(self) -> &'static str
        ensures { result.now ≡ field_name self }
    {
        match self {
            Field::Time => "time",
            Field::Kind => "kind",
            Field::Machine => "machine",
            Field::Crew => "crew",
            Field::Run => "run",
            Field::Reading => "reading",
        }
    }
}

impl fmt::Display for Field {
    ghost output = { λ field. Some (field_name field) };

    fn fmt<W: fmt::Write>(&self, f: &mut fmt::Formatter<W>) -> fmt::Result {
        f.write_str(self.name())
    }
}
