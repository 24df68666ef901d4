// Rounding up a stretch of results of any kind.
ghost use Rattle.std.specs.Prelude.{◌≡◌, ◌+◌, ◌<◌, ◌≤◌, length, take, drop, MatchOption};
ghost use Rattle.roundup.specs.Rounding.{joined_all, round_up, CutInTwo, outside_number};

use crate::joining::Joining;

// The stretch reaches beyond the results.
#[derive(Clone, Copy)]
pub struct OutsideResults;

impl OutsideResults {
    // The number of the refusal. (Those who are told of refusals know them by numbers.)
    pub fn number(self) -> u8
        ensures { result ≡ outside_number self }
    {
        45
    }
}

// The join of the results in order, the neutral result where there are none.
fn join_all<K: Joining>(results: &[K]) -> K
    ensures { result ≡ joined_all K.join K.neutral results.now }
{
    results
        .iter()
        .fold(K::neutral(), |total, next| total.joined(*next))
}

// The `count` results from `start` on, if there are that many.
fn stretch<K>(results: &[K], start: usize, count: usize) -> Option<&[K]>
    ensures { MatchOption result (length results.now < start + count) (λ s. (start + count ≤ length results.now) × (s.now ≡ take count (drop start results.now))) }
{
    results.get(start..start.checked_add(count)?)
}

// The join of the `count` results from `start` on, or a refusal where there are not that many. Cutting a
// stretch in two and joining the two round-ups gives the same.
pub fn round_up<K: Joining>(results: &[K], start: usize, count: usize) -> Result<K, OutsideResults>
    ensures answer { result ≡ round_up K.join K.neutral results.now start count }
    ensures cut { CutInTwo K.join K.neutral }
{
    stretch(results, start, count)
        .map(|found| join_all(found))
        .ok_or(OutsideResults)
}
