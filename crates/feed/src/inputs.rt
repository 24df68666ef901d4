// Feeds over the caller's bytes or words.
ghost use Rattle.std.specs.Prelude.{◌≡◌, ℕ, ◌<◌, ◌≤◌, true, false, List, Result, MatchResult};
ghost use Rattle.feed.specs.Opening.{outside, open_number};
ghost use Rattle.feed.specs.Text.{text_line};
ghost use Rattle.feed.specs.Packed.{packed_line};
ghost use Rattle.feed.specs.declared.faults.FaultKind.{FaultKind};
ghost use Rattle.feed.specs.declared.lines.Line.{Line};
ghost use Rattle.std.proofs.Common.{lit<, lit≤};

use crate::faults::FaultKind;
use crate::lines::Line;
use crate::packed::read_packed;
use crate::text::read_text;

// How lines are written: what an item is cut from, how long it is, and which line or fault it is.
pub trait Encoding {
    type Unit: Copy;

    ghost width: { ℕ };

    ghost most: { ℕ };

    ghost reads: { List Self.Unit → Result Line FaultKind };

    fn width() -> usize
        ensures { result ≡ width };

    fn most() -> usize
        ensures { result ≡ most };

    fn read(item: &[Self::Unit]) -> Result<Line, FaultKind>
        ensures { result ≡ reads item.now };

    ghost some: { 0 < width };
}

// An encoding of which the most that one feed is given lets in one item at least.
pub trait Fitting: Encoding {
    ghost fits: { Self.width ≤ Self.most };
}

#[derive(Drop)]
pub struct Text;

impl Encoding for Text {
    type Unit = u8;

    ghost width = { 35 };

    ghost most = { 65536 };

    ghost reads = { text_line };

    ghost some = { lit< tt };

    fn width() -> usize {
        35
    }

    fn most() -> usize {
        65_536
    }

    fn read(item: &[u8]) -> Result<Line, FaultKind> {
        read_text(item)
    }
}

#[derive(Drop)]
pub struct Packed;

impl Encoding for Packed {
    type Unit = u32;

    ghost width = { 4 };

    ghost most = { 16384 };

    ghost reads = { packed_line };

    ghost some = { lit< tt };

    fn width() -> usize {
        4
    }

    fn most() -> usize {
        16_384
    }

    fn read(item: &[u32]) -> Result<Line, FaultKind> {
        read_packed(item)
    }
}

impl Fitting for Text {
    ghost fits = { lit≤ tt };
}

impl Fitting for Packed {
    ghost fits = { lit≤ tt };
}

// Why an opening was refused.
#[derive(Clone, Copy)]
pub enum OpenRefusal {
    Station,
    FirstItem,
    InputLength,
}

impl OpenRefusal {
    // The number by which the refusal is told, which is one for all three.
    pub fn number(self) -> u8
        ensures { result ≡ open_number self }
    {
        match self {
            OpenRefusal::Station => 44,
            OpenRefusal::FirstItem => 44,
            OpenRefusal::InputLength => 44,
        }
    }
}

// A station has a number of 1 to 9,999.
pub(crate) fn check_station(station: u16) -> Result<(), OpenRefusal>
    ensures { MatchResult result (λ _. outside 1 9999 station ≡ false) (λ e. (outside 1 9999 station ≡ true) × (e ≡ OpenRefusal.Station)) }
{
    if !(1..=9_999).contains(&station) {
        return Err(OpenRefusal::Station);
    }
    Ok(())
}
