// Verdicts, and their join.
ghost use Rattle.std.specs.Prelude.{◌≡◌};
ghost use Rattle.duty.specs.Verdicts.{join, verdict_numbers};

// What a rule has come to: nothing yet, or satisfied or breached at a line, numbered from 1.
#[derive(Clone, Copy, Debug, PartialEq, Eq)]
pub enum Verdict {
    Pending,
    Satisfied(u32),
    Breached(u32),
}

impl Verdict {
    // 0 while pending, 1 satisfied, 2 breached.
    pub fn number(self) -> u8
        ensures { result ≡ (verdict_numbers self).0 }
    {
        match self {
            Verdict::Pending => 0,
            Verdict::Satisfied(_) => 1,
            Verdict::Breached(_) => 2,
        }
    }

    // The line that decided, 0 while there is none.
    pub fn line(self) -> u32
        ensures { result ≡ (verdict_numbers self).1 }
    {
        match self {
            Verdict::Pending => 0,
            Verdict::Satisfied(line) | Verdict::Breached(line) => line,
        }
    }

    // The smallest breach if there is one; else pending if either is; else satisfied at the larger line.
    pub fn join(self, other: Verdict) -> Verdict
        ensures { result ≡ join self other }
    {
        match (self, other) {
            (Verdict::Breached(i), Verdict::Breached(j)) => Verdict::Breached(i.min(j)),
            (Verdict::Breached(_), _) => self,
            (_, Verdict::Breached(_)) => other,
            (Verdict::Satisfied(i), Verdict::Satisfied(j)) => Verdict::Satisfied(i.max(j)),
            _ => Verdict::Pending,
        }
    }
}
