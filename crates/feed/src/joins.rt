// Two feeds as one.
ghost use Rattle.std.specs.Prelude.{◌≡◌};
ghost use Rattle.feed.specs.Waiting.{before, leads, merged, Merge};

use crate::faults::Item;
use crate::feeds::Feed;

// Whether the item that heads the left feed comes before the one that heads the right.
fn comes_first(left: Item, right: Item) -> bool
    ensures { result ≡ before left right }
{
    match (left, right) {
        (Item::Faulty(_), _) => true,
        (Item::Sound(_), Item::Faulty(_)) => false,
        (Item::Sound(a), Item::Sound(b)) => a.time <= b.time,
    }
}

// Whether the left feed gives the next item, by what waits first in each.
fn left_next(left: Option<Item>, right: Option<Item>) -> bool
    ensures { result ≡ leads left right }
{
    match (left, right) {
        (None, _) => false,
        (Some(_), None) => true,
        (Some(a), Some(b)) => comes_first(a, b),
    }
}

// A feed on any two feeds, which it holds by value.
#[derive(Drop)]
pub struct Joined<L, R> {
    pub left: L,
    pub right: R,
}

impl<L: Feed, R: Feed> Joined<L, R> {
    // The two feeds as one, whose list is the merge of theirs.
    pub fn new(left: L, right: R) -> Joined<L, R>
        ensures held { (result.left ≡ left) × (result.right ≡ right) }
        ensures merge { Merge (L.waiting left) (R.waiting right) }
    {
        Joined { left, right }
    }
}

impl<L: Feed, R: Feed> Feed for Joined<L, R> {
    ghost waiting = { λ s. merged (L.waiting s.left) (R.waiting s.right) };

    fn look(&mut self) -> Option<Item> {
        let left = self.left.look();
        let right = self.right.look();
        if left_next(left, right) { left } else { right }
    }

    fn drop_first(&mut self) -> bool {
        let left = self.left.look();
        let right = self.right.look();
        if left_next(left, right) {
            self.left.drop_first()
        } else {
            self.right.drop_first()
        }
    }
}
