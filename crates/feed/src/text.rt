// The text form of a line: 35 bytes, six fields in columns and a line feed.
ghost use Rattle.std.specs.Prelude.{◌≡◌, ◌<◌, ◌≤◌, length, ◌==◌};
ghost use Rattle.std.specs.List.{prefix_len};
ghost use Rattle.feed.specs.Text.{start, width, after_blanks, digits_from, numeral, field_text, column, settled, value_in, text_fields, text_line};

use crate::faults::FaultKind;
use crate::fields::Field;
use crate::lines::Line;

// What the columns of a field hold. As a Result of an Option the two ways to hold no number would be
// told apart by nesting alone.
#[derive(Clone, Copy)]
pub enum FieldText {
    Blank,
    Number(u32),
    Malformed,
}

// The column at which a field starts.
fn start_of(field: Field) -> usize
    ensures { result ≡ start field }
{
    match field {
        Field::Time => 0,
        Field::Kind => 8,
        Field::Machine => 12,
        Field::Crew => 17,
        Field::Run => 22,
        Field::Reading => 27,
    }
}

// How many columns a field has.
fn width_of(field: Field) -> usize
    ensures { result ≡ width field }
{
    match field {
        Field::Time => 8,
        Field::Kind => 4,
        Field::Machine => 5,
        Field::Crew => 5,
        Field::Run => 5,
        Field::Reading => 7,
    }
}

// How many blanks stand in front.
fn count_blanks(bytes: &[u8]) -> usize
    ensures count { result ≡ prefix_len (λ b. b == 32) bytes.now }
    ensures within { result ≤ length bytes.now }
{
    bytes.iter().take_while(|b| **b == b' ').count()
}

// What follows the blanks in front.
fn after_blanks(bytes: &[u8]) -> &[u8]
    ensures rest { result.now ≡ after_blanks bytes.now }
    ensures within { length result.now ≤ length bytes.now }
{
    &bytes[count_blanks(bytes)..]
}

// Bytes of one field's columns.
#[derive(Clone, Copy)]
struct Column<'a> {
    bytes: &'a [u8],
    ghost short: { length bytes.now ≤ 8 },
}

impl Column<'_> {
    // The number that the bytes write, as digits.
    fn digits(self) -> FieldText
        ensures { result ≡ digits_from 0 self.entry.bytes.now }
    {
        let mut n: u32 = 0;
        for digit in self.bytes {
            if !digit.is_ascii_digit() {
                return FieldText::Malformed;
            }
            n = n * 10 + u32::from(*digit - b'0');
        }
        FieldText::Number(n)
    }

    // A number with no leading zero but in 0 itself, or nothing at all.
    fn numeral(self) -> FieldText
        ensures { result ≡ numeral self.entry.bytes.now }
    {
        match self.bytes {
            [] => FieldText::Blank,
            [b'0', _, ..] => FieldText::Malformed,
            _ => self.digits(),
        }
    }

    // One blank or more, then a number up to the right end, or blanks alone.
    fn read(self) -> FieldText
        ensures { result ≡ field_text self.entry.bytes.now }
    {
        match self.bytes {
            [b' ', rest @ ..] => Column {
                bytes: after_blanks(rest),
            }
            .numeral(),
            _ => FieldText::Malformed,
        }
    }
}

// A field's value; only time and kind may not be blank.
fn settle(field: Field, text: FieldText) -> Option<u32>
    ensures { result ≡ settled field text }
{
    match text {
        FieldText::Number(n) => Some(n),
        FieldText::Malformed => None,
        FieldText::Blank => match field {
            Field::Time | Field::Kind => None,
            Field::Machine | Field::Crew | Field::Run | Field::Reading => Some(0),
        },
    }
}

// An item of text that has the bytes of all six fields.
#[derive(Clone, Copy)]
struct Row<'a> {
    bytes: &'a [u8],
    ghost whole: { 35 ≤ length bytes.now },
}

impl Row<'_> {
    // What a field's columns hold.
    fn columns(self, field: Field) -> FieldText
        ensures { result ≡ field_text (column field self.entry.bytes.now) }
    {
        let from = start_of(field);
        let to = from + width_of(field);
        let bytes = &self.bytes[from..to];
        Column { bytes }.read()
    }

    // A field's value, or the fault that names it.
    #[tactic(auto, unfolding(crate::specs::Text::value_in))]
    fn value_in(self, field: Field) -> Result<u32, FaultKind>
        ensures { result ≡ value_in field self.entry.bytes.now }
    {
        settle(field, self.columns(field)).ok_or(FaultKind::Malformed(field))
    }

    // The line of the six fields, or the lowest malformed one.
    #[tactic(auto, unfolding(crate::specs::Text::text_fields))]
    fn fields(self) -> Result<Line, FaultKind>
        ensures { result ≡ text_fields self.entry.bytes.now }
    {
        let time = self.value_in(Field::Time)?;
        let kind = self.value_in(Field::Kind)?;
        let machine = self.value_in(Field::Machine)?;
        let crew = self.value_in(Field::Crew)?;
        let run = self.value_in(Field::Run)?;
        let reading = self.value_in(Field::Reading)?;
        Line::new(time, kind, machine, crew, run, reading).map_err(FaultKind::Malformed)
    }
}

// The line that an item of text is, or its fault. Of a longer slice the first 35 bytes are read.
pub fn read_text(item: &[u8]) -> Result<Line, FaultKind>
    ensures { result ≡ text_line item.now }
{
    if item.len() < 35 {
        return Err(FaultKind::ShortText);
    }
    if item[34] != b'\n' {
        return Err(FaultKind::NoLineFeed);
    }
    Row { bytes: item }.fields()
}
