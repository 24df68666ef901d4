// Tallies of verdicts, made of counts and of verdicts, added and read.
ghost use Rattle.std.specs.Prelude.{◌≡◌, ◌≤◌};
ghost use Rattle.roundup.specs.Counts.{most};
ghost use Rattle.roundup.specs.Tallies.{tally_of, sum_of, tally_of_one};

use crate::counts::Count;
use duty::verdicts::Verdict;

// How many verdicts are satisfied, breached and pending.
#[derive(Clone, Copy)]
pub struct Tally {
    satisfied: Count,
    breached: Count,
    pending: Count,
}

impl Tally {
    // The tally with these counts, each read as 999,999 at most.
    pub fn new(satisfied: u32, breached: u32, pending: u32) -> Tally
        ensures { result ≡ tally_of satisfied breached pending }
    {
        Tally {
            satisfied: Count::new(satisfied),
            breached: Count::new(breached),
            pending: Count::new(pending),
        }
    }

    // The two tallies added, each count up to 999,999.
    pub fn plus(self, other: Tally) -> Tally
        ensures { result ≡ sum_of self other }
    {
        Tally {
            satisfied: self.satisfied.plus(other.satisfied),
            breached: self.breached.plus(other.breached),
            pending: self.pending.plus(other.pending),
        }
    }

    // How many are satisfied.
    pub fn satisfied(self) -> u32
        ensures value { result ≡ self.satisfied.number }
        ensures within { result ≤ most }
    {
        self.satisfied.get()
    }

    // How many are breached.
    pub fn breached(self) -> u32
        ensures value { result ≡ self.breached.number }
        ensures within { result ≤ most }
    {
        self.breached.get()
    }

    // How many are pending.
    pub fn pending(self) -> u32
        ensures value { result ≡ self.pending.number }
        ensures within { result ≤ most }
    {
        self.pending.get()
    }
}

// The tally of one verdict.
impl From<Verdict> for Tally {
    ghost from_gives = { λ verdict tally. tally ≡ tally_of_one verdict };

    fn from(verdict: Verdict) -> Tally {
        match verdict {
            Verdict::Satisfied(_) => Tally::new(1, 0, 0),
            Verdict::Breached(_) => Tally::new(0, 1, 0),
            Verdict::Pending => Tally::new(0, 0, 1),
        }
    }
}
