// An observer that counts the turns of each auditor.
ghost use Rattle.std.specs.Prelude.{◌≡◌, []};
ghost use Rattle.runs.specs.Counts.{Counts};

use crate::calls::Side;
use crate::observers::Observer;
use crate::racks::Feeds;
use auditor::auditors::Auditor;

// How many turns it was shown, up to the largest count.
#[derive(Drop)]
pub struct TurnCount {
    first: u64,
    second: u64,
}

impl TurnCount {
    // No turn so far.
    pub fn new() -> TurnCount
        ensures { Counts result.first result.second [] }
    {
        TurnCount {
            first: 0,
            second: 0,
        }
    }

    // The turns at the first auditor.
    pub fn first(&self) -> u64
        ensures { result ≡ self.now.first }
    {
        self.first
    }

    // The turns at the second auditor.
    pub fn second(&self) -> u64
        ensures { result ≡ self.now.second }
    {
        self.second
    }
}

impl Observer for TurnCount {
    ghost saw = { λ s ms. Counts s.first s.second ms };

    fn note<F: Feeds, G: Feeds>(
        &mut self,
        side: Side,
        _first: &Auditor,
        _left: &mut F,
        _second: &Auditor,
        _right: &mut G,
    ) {
        // (With one `&mut` to the count of either side the clause of the moments stays open.)
        match side {
            Side::First => self.first = self.first.saturating_add(1),
            Side::Second => self.second = self.second.saturating_add(1),
        }
    }
}
