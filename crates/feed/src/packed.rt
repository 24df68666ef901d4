// The packed form of a line: four 32-bit words.
ghost use Rattle.std.specs.Prelude.{◌≡◌, Ok};
ghost use Rattle.feed.specs.Packed.{upper, lower, packed_line, halves, packed_words};

use crate::faults::FaultKind;
use crate::lines::Line;

// The upper 16 bits of a word.
fn upper_half(word: u32) -> u32
    ensures { result ≡ upper word }
{
    word >> 16
}

// The lower 16 bits of a word.
fn lower_half(word: u32) -> u32
    ensures { result ≡ lower word }
{
    word & 0xffff
}

// The word with these upper and lower 16 bits.
fn word_of(high: u16, low: u16) -> u32
    ensures { result ≡ halves high low }
{
    u32::from(high) * 65_536 + u32::from(low)
}

// The line that a packed item is, or its fault. Of a longer slice the first four words are read.
pub fn read_packed(item: &[u32]) -> Result<Line, FaultKind>
    ensures { result ≡ packed_line item.now }
{
    let &[time, kind_machine, crew_run, reading, ..] = item else {
        return Err(FaultKind::FewWords);
    };
    Line::new(
        time,
        upper_half(kind_machine),
        lower_half(kind_machine),
        upper_half(crew_run),
        lower_half(crew_run),
        reading,
    )
    .map_err(FaultKind::OverLimit)
}

impl Line {
    // The line in packed form, which reads as this line again.
    #[tactic(auto, using(crate::proofs::Written::read_back))]
    pub fn words(&self) -> [u32; 4]
        ensures words { result ≡ packed_words self.now }
        ensures back { packed_line result ≡ Ok self.now }
    {
        [
            self.time,
            word_of(self.kind, self.machine),
            word_of(self.crew, self.run),
            self.reading,
        ]
    }
}
