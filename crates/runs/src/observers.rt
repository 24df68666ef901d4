// Whoever is shown both auditors and their feeds after each call.
ghost use Rattle.std.specs.Prelude.{◌≡◌, List, [], ◌∷◌, ◌++◌};
ghost use Rattle.runs.specs.Turns.{Moment, moment, shown_by};

use crate::calls::Side;
use crate::racks::Feeds;
use auditor::auditors::Auditor;

// An observer may read pages and look at what waits; it leaves the waiting lists as they are.
pub trait Observer {
    // `saw s ms`: an observer in the state s may be one that was shown just the moments ms, in their order.
    ghost saw: { Self → List Moment → Type 0 };

    // Shown after a call at one side. (Auditors and feeds stand apart here: the ones are only read, the others looked at.)
    fn note<F: Feeds, G: Feeds>(
        &mut self,
        side: Side,
        first: &Auditor,
        left: &mut F,
        second: &Auditor,
        right: &mut G,
    )
        ensures seen { (ms : List Moment) → saw self.old ms → saw self.new (ms ++ (moment side (shown_by first.now (F.lists left.old)) (shown_by second.now (G.lists right.old)) ∷ [])) }
        ensures left { F.lists left.new ≡ F.lists left.old }
        ensures right { G.lists right.new ≡ G.lists right.old };
}

// An observer that keeps nothing of what it is shown.
#[derive(Drop)]
pub struct Unobserved;

impl Observer for Unobserved {
    ghost saw = { λ _ _. Unit {0} };

    fn note<F: Feeds, G: Feeds>(
        &mut self,
        _side: Side,
        _first: &Auditor,
        _left: &mut F,
        _second: &Auditor,
        _right: &mut G,
    ) {}
}
