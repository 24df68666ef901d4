// Making calls, one by one.
ghost use Rattle.std.specs.Prelude.{List};
ghost use Rattle.runs.specs.Calls.{Account};
ghost use Rattle.runs.specs.Making.{SameFeeds, seat, Agrees, BothAgree, Made, TurnMade, SideMade, NotedTurn, TurnsMade};
ghost use Rattle.runs.specs.Turns.{Both};

use crate::calls::{Answer, Call, Side, Turn};
use crate::observers::Observer;
use crate::posts::Post;
use crate::racks::Feeds;

// Makes one call.
fn make_call<R: Feeds>(post: &mut Post<R>, call: Call, buffer: &mut [u8]) -> Answer
    ensures feeds { SameFeeds post.old post.new }
    ensures made { (s : Account) → Agrees s (seat R.lists post.old) → Made s call buffer.old result buffer.new (seat R.lists post.new) }
{
    match call {
        Call::Take { feed, count } => {
            Answer::Took(post.feeds.take_from(feed, &mut post.auditor, count))
        }
        Call::Skip { feed } => Answer::Skipped(post.feeds.skip_from(feed)),
        Call::VerdictPage => Answer::Paged(post.auditor.verdict_page(buffer)),
        Call::SheetPage => Answer::Paged(post.auditor.sheet_page(buffer)),
    }
}

// Makes the call of a turn.
fn make_turn<R: Feeds>(post: &mut Post<R>, turn: &mut Turn)
    ensures feeds { SameFeeds post.old post.new }
    ensures made { (s : Account) → Agrees s (seat R.lists post.old) → TurnMade s turn.old turn.new (seat R.lists post.new) }
{
    let answer = make_call(post, turn.call, turn.buffer.as_mut_slice());
    turn.answer = Some(answer);
}

// Makes the call of a turn at its side.
fn make_at_side<F: Feeds, G: Feeds>(first: &mut Post<F>, second: &mut Post<G>, turn: &mut Turn)
    ensures left { SameFeeds first.old first.new }
    ensures right { SameFeeds second.old second.new }
    ensures made { (b : Both) → BothAgree b (seat F.lists first.old) (seat G.lists second.old) → SideMade b turn.old turn.new (seat F.lists first.new) (seat G.lists second.new) }
{
    match turn.side {
        Side::First => make_turn(first, turn),
        Side::Second => make_turn(second, turn),
    }
}

// Makes the call of a turn, and shows the observer both auditors then.
fn make_noted<F: Feeds, G: Feeds, O: Observer>(
    first: &mut Post<F>,
    second: &mut Post<G>,
    turn: &mut Turn,
    observer: &mut O,
)
    ensures left { SameFeeds first.old first.new }
    ensures right { SameFeeds second.old second.new }
    ensures made { (b : Both) → BothAgree b (seat F.lists first.old) (seat G.lists second.old) → NotedTurn b turn.old turn.new (seat F.lists first.new) (seat G.lists second.new) (O.saw observer.old) (O.saw observer.new) }
{
    make_at_side(first, second, turn);
    observer.note(
        turn.side,
        &first.auditor,
        first.feeds,
        &second.auditor,
        second.feeds,
    );
}

// Makes the turns one by one.
pub(crate) fn make_turns<F: Feeds, G: Feeds, O: Observer>(
    first: &mut Post<F>,
    second: &mut Post<G>,
    turns: &mut [Turn],
    observer: &mut O,
)
    ensures left { SameFeeds first.old first.new }
    ensures right { SameFeeds second.old second.new }
    ensures made { (b : Both) → BothAgree b (seat F.lists first.old) (seat G.lists second.old) → TurnsMade b turns.old turns.new (seat F.lists first.new) (seat G.lists second.new) (O.saw observer.old) (O.saw observer.new) }
{
    for turn in turns.iter_mut() {
        make_noted(first, second, turn, observer);
    }
}
