// The feeds of one auditor, each of a make of its own, numbered from 0.
ghost use Rattle.std.specs.Prelude.{◌≡◌, List, [], ◌∷◌};
ghost use Rattle.feed.specs.Waiting.{first, later};
ghost use Rattle.feed.specs.declared.faults.Item.{Item};
ghost use Rattle.feed.specs.declared.lines.Line.{Line};
ghost use Rattle.book.specs.Rules.{Rule};
ghost use Rattle.auditor.specs.Account.{takes, skipping};
ghost use Rattle.auditor.specs.Holds.{Holds, Untouched};
ghost use Rattle.runs.specs.Lists.{waiting_at, put_at, TookAt};

use auditor::answers::{Refusal, Taken};
use auditor::auditors::Auditor;
use auditor::skips::skip;
use feed::faults::Item;
use feed::feeds::Feed;

// Feeds of any makes, by the lists of what waits in them. A feed that is not there is one in which nothing waits.
pub trait Feeds {
    ghost lists: { Self → List (List Item) };

    fn look_at(&mut self, i: usize) -> Option<Item>
        ensures answer { result ≡ first (waiting_at (lists self.old) i) }
        ensures stays { lists self.new ≡ lists self.old };

    fn take_from(&mut self, i: usize, auditor: &mut Auditor, count: u32) -> Taken
        ensures taken { (rs : List Rule) (log : List Line) → Holds rs log auditor.old → TookAt rs log (takes rs count log (waiting_at (lists self.old) i)) i result auditor.new (lists self.old) (lists self.new) }
        ensures untouched { Untouched count auditor.old auditor.new self.old self.new };

    fn skip_from(&mut self, i: usize) -> Result<(), Refusal>
        ensures answer { result ≡ skipping (waiting_at (lists self.old) i) }
        ensures after { lists self.new ≡ put_at (lists self.old) i (later (waiting_at (lists self.old) i)) };
}

// A feed in which nothing waits.
#[derive(Drop)]
struct Nothing;

impl Feed for Nothing {
    ghost waiting = { λ _. [] };

    fn look(&mut self) -> Option<Item> {
        None
    }

    fn drop_first(&mut self) -> bool {
        false
    }
}

// No feeds.
#[derive(Drop)]
pub struct NoFeeds;

impl Feeds for NoFeeds {
    ghost lists = { λ _. [] };

    fn look_at(&mut self, _i: usize) -> Option<Item> {
        None
    }

    fn take_from(&mut self, _i: usize, auditor: &mut Auditor, count: u32) -> Taken {
        auditor.take(&mut Nothing, count)
    }

    fn skip_from(&mut self, _i: usize) -> Result<(), Refusal> {
        Err(Refusal::NothingWaits)
    }
}

// One feed, and the feeds behind it.
#[derive(Drop)]
pub struct Rack<F, R> {
    pub first: F,
    pub rest: R,
}

impl<F: Feed, R: Feeds> Feeds for Rack<F, R> {
    ghost lists = { λ s. F.waiting s.first ∷ R.lists s.rest };

    fn look_at(&mut self, i: usize) -> Option<Item> {
        if i == 0 {
            self.first.look()
        } else {
            self.rest.look_at(i - 1)
        }
    }

    fn take_from(&mut self, i: usize, auditor: &mut Auditor, count: u32) -> Taken {
        if i == 0 {
            auditor.take(&mut self.first, count)
        } else {
            self.rest.take_from(i - 1, auditor, count)
        }
    }

    fn skip_from(&mut self, i: usize) -> Result<(), Refusal> {
        if i == 0 {
            skip(&mut self.first)
        } else {
            self.rest.skip_from(i - 1)
        }
    }
}
