// The kinds of results that are rounded up: verdicts and tallies.
ghost use Rattle.duty.specs.Verdicts.{join as join_of_verdicts};
ghost use Rattle.duty.specs.declared.verdicts.Verdict.TheVariants.{Satisfied};
ghost use Rattle.duty.proofs.Joins.{join_assoc, join_comm, join-neutral};
ghost use Rattle.roundup.specs.Tallies.{tally_of, sum_of};
ghost use Rattle.roundup.specs.Sums.{sums_regrouped, sums_exchanged, sums_unchanged};

use crate::joining::Joining;
use crate::tallies::Tally;
use duty::verdicts::Verdict;

// Verdicts are joined as the sides of a rule are; satisfied at 0 adds nothing.
impl Joining for Verdict {
    ghost neutral = { Satisfied 0 };

    ghost join = { join_of_verdicts };

    ghost regrouped = { join_assoc };

    ghost exchanged = { join_comm };

    ghost unchanged = { join-neutral };

    fn neutral() -> Verdict {
        Verdict::Satisfied(0)
    }

    fn joined(self, other: Verdict) -> Verdict {
        self.join(other)
    }
}

// Tallies are added; the tally of no verdict adds nothing.
impl Joining for Tally {
    ghost neutral = { tally_of 0 0 0 };

    ghost join = { sum_of };

    ghost regrouped = { sums_regrouped };

    ghost exchanged = { sums_exchanged };

    ghost unchanged = { sums_unchanged };

    fn neutral() -> Tally {
        Tally::new(0, 0, 0)
    }

    fn joined(self, other: Tally) -> Tally {
        self.plus(other)
    }
}
