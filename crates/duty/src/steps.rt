// Steps that go no deeper: a duty, a trigger that waits, an `each` whose duties have stepped.
// The act or start and the end stay apart: they are two fields of a rule, taken out by one match and handed on.
ghost use Rattle.std.specs.Prelude.{◌≡◌, T};
ghost use Rattle.book.specs.Rules.{duty as duty_rule, trigger};
ghost use Rattle.book.specs.Trees.{pure_pattern, pure_rule};
ghost use Rattle.book.specs.declared.terms.TriggerKind.TheVariants.{Once};
ghost use Rattle.duty.specs.declared.matching.Effect.TheVariants.{Passes};
ghost use Rattle.duty.specs.Matching.{Bindings, Limited, effect as effect_at};
ghost use Rattle.duty.specs.Open.{start as starting, duty_step, once_step, each_effect};
ghost use Rattle.duty.specs.Drafts.{Adds};
ghost use Rattle.duty.specs.Places.{Placed};
ghost use Rattle.duty.specs.Stepping.{AtLevel, Came, Closes, PassedBy, marks, some_left};

use crate::drafts::Draft;
use crate::entries::{Entry, Letters};
use crate::matching::{Effect, effect_of, never_matches};
use crate::openings::open_rule;
use crate::outcomes::Outcome;
use crate::places::Place;
use book::rules::{Pattern, Rule};
use book::terms::{DutyKind, TriggerKind};
use feed::lines::Line;

// A duty under these letters: the deadline before the act.
#[tactic(auto, unfolding(crate::specs::Open::entries))]
pub(crate) fn step_duty(
    kind: DutyKind,
    act: &Pattern,
    deadline: &Pattern,
    place: Place,
    letters: &Letters,
    line: &Line,
    draft: &mut Draft,
) -> Outcome
    requires { Placed place (duty_rule kind (pure_pattern act.now) (pure_pattern deadline.now)) }
    ensures { Came (duty_rule kind (pure_pattern act.now) (pure_pattern deadline.now)) place.node place.level (duty_step kind letters.now (effect_at (pure_pattern act.now) (pure_pattern deadline.now) letters.now line.now)) draft.old draft.new result }
{
    match (effect_of(act, deadline, line, letters), kind) {
        (Effect::Ends, DutyKind::Must) | (Effect::Acts(_), DutyKind::MustNot) => Outcome::Breached,
        (Effect::Ends, DutyKind::MustNot) | (Effect::Acts(_), DutyKind::Must) => Outcome::Satisfied,
        (Effect::Passes, _) => {
            draft.write(place, false, letters);
            Outcome::Open
        }
    }
}

// A `once` that has not been triggered. The line that triggers it is not shown to its duty.
#[tactic(auto, unfolding(crate::specs::Open::entries))]
pub(crate) fn step_waiting(
    start: &Pattern,
    end: &Pattern,
    duty: &Rule,
    place: Place,
    letters: &Letters,
    line: &Line,
    draft: &mut Draft,
) -> Outcome
    requires { Placed place (trigger Once (pure_pattern start.now) (pure_pattern end.now) (pure_rule duty.now)) }
    ensures { Came (trigger Once (pure_pattern start.now) (pure_pattern end.now) (pure_rule duty.now)) place.node place.level (once_step letters.now (effect_at (pure_pattern start.now) (pure_pattern end.now) letters.now line.now) (starting (pure_rule duty.now))) draft.old draft.new result }
{
    match effect_of(start, end, line, letters) {
        Effect::Ends => Outcome::Satisfied,
        Effect::Acts(enlarged) => {
            open_rule(duty, place.inside(1), &enlarged, draft);
            Outcome::Open
        }
        Effect::Passes => {
            draft.write(place, false, letters);
            Outcome::Open
        }
    }
}

// What a line does to an `each`: one that is marked has ended, and looks at no line.
pub(crate) fn each_effect(
    start: &Pattern,
    end: &Pattern,
    mark: bool,
    letters: &Letters,
    line: &Line,
) -> Effect
    requires start { Limited (pure_pattern start.now) }
    requires end { Limited (pure_pattern end.now) }
    ensures { result ≡ each_effect mark (effect_at (pure_pattern start.now) (pure_pattern end.now) letters.now line.now) }
{
    if mark {
        Effect::Ends
    } else {
        effect_of(start, end, line, letters)
    }
}

pub(crate) fn ends_each(effect: Effect) -> bool
    ensures { result ≡ marks effect }
{
    matches!(effect, Effect::Ends)
}

// An `each` whose duties have stepped, none of them to a breach: it is satisfied if it has ended and no duty is
// left; the line that acts opens one more, and is not shown to it.
pub(crate) fn close_each(
    effect: Effect,
    left: Outcome,
    duty: &Rule,
    inner: Place,
    count: usize,
    draft: &mut Draft,
) -> Outcome
    requires { Placed inner (pure_rule duty.now) }
    ensures { Closes (pure_rule duty.now) inner effect left count draft.old result draft.new }
{
    match (effect, left) {
        (Effect::Acts(letters), _) => {
            open_rule(duty, inner, &letters, draft);
            Outcome::Open
        }
        (Effect::Ends, Outcome::Satisfied | Outcome::Breached) => {
            draft.cut(count);
            Outcome::Satisfied
        }
        (Effect::Ends, Outcome::Open) | (Effect::Passes, _) => Outcome::Open,
    }
}

// Neither pattern matches this line, whichever letters are bound.
#[tactic(auto, using(crate::proofs::Passing::no_effect))]
fn neither_matches(act: &Pattern, end: &Pattern, line: &Line) -> bool
    ensures { T result → (f : Bindings) → effect_at (pure_pattern act.now) (pure_pattern end.now) f line.now ≡ Passes }
{
    never_matches(end, line) && never_matches(act, line)
}

// A rule that this line passes by, whatever is open of it.
pub(crate) fn passed_by(rule: &Rule, line: &Line) -> bool
    ensures { T result → PassedBy (pure_rule rule.now) line.now }
{
    match rule {
        Rule::Duty(_, act, deadline) => neither_matches(act, deadline, line),
        Rule::Trigger(TriggerKind::Once, start, end, duty) => {
            neither_matches(start, end, line) && passed_by(duty, line)
        }
        Rule::Trigger(TriggerKind::Each, ..) => false,
        Rule::Bracket(_, first, second) => passed_by(first, line) && passed_by(second, line),
    }
}

// The entries stand at this level already.
pub(crate) fn stands_at(below: &[Entry], level: u8) -> bool
    ensures { T result → AtLevel level below.now }
{
    below.first().is_none_or(|entry| entry.level == level)
}

// Duties that a line passes by stay as they are.
pub(crate) fn keep_duties(below: &[Entry], draft: &mut Draft) -> Outcome
    ensures answer { result ≡ some_left below.now }
    ensures written { Adds draft.old draft.new below.now }
{
    draft.extend(below);
    if below.is_empty() {
        Outcome::Satisfied
    } else {
        Outcome::Open
    }
}
