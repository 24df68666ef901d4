// One line for a rule and its open entries, walked side by side: each step goes into the entries below, with one
// level less to go. Entries are read from the old sheet and written to the draft of the next.
// Parameters of their own: the place and the group change at each step; a struct that held the draft by `&mut`, with
// the line, would add to each contract that the draft is still the caller's.
ghost use Rattle.std.specs.Prelude.{◌≡◌, ◌<◌, ◌≤◌, length};
ghost use Rattle.book.specs.Rules.{trigger, bracket};
ghost use Rattle.book.specs.Trees.{pure_pattern, pure_rule};
ghost use Rattle.book.specs.declared.terms.TriggerKind.TheVariants.{Each, Once};
ghost use Rattle.book.specs.declared.terms.BracketKind.TheVariants.{Else, And};
ghost use Rattle.duty.specs.Places.{Placed};
ghost use Rattle.duty.specs.Stepping.{StepsAt, DutiesStepAt, BothStepAt};

use crate::drafts::Draft;
use crate::entries::Entry;
use crate::groups::{Group, split_group};
use crate::openings::{count_nodes, open_rule};
use crate::outcomes::{Outcome, Sides, sides_of};
use crate::places::Place;
use crate::steps::{
    close_each, each_effect, ends_each, keep_duties, passed_by, stands_at, step_duty, step_waiting,
};
use book::rules::{Pattern, Rule};
use book::terms::{BracketKind, TriggerKind};
use feed::lines::Line;

// What one line leaves of a rule whose entries are these; a decided rule has none, and writes none.
#[cycle(steps)]
pub(crate) fn step_rule(
    rule: &Rule,
    place: Place,
    entries: &[Entry],
    line: &Line,
    draft: &mut Draft,
) -> Outcome
    requires { Placed place (pure_rule rule.now) }
    ensures { StepsAt (pure_rule rule.now) place entries.now line.now draft.old result draft.new }
{
    if entries.is_empty() {
        return Outcome::Satisfied;
    }
    let group = Group { entries };
    match rule {
        Rule::Duty(kind, act, deadline) => {
            let letters = &group.head().letters;
            step_duty(*kind, act, deadline, place, letters, line, draft)
        }
        Rule::Trigger(TriggerKind::Each, start, end, duty) => {
            step_each(start, end, duty, place, group, line, draft)
        }
        Rule::Trigger(TriggerKind::Once, start, end, duty) => {
            step_once(start, end, duty, place, group, line, draft)
        }
        Rule::Bracket(BracketKind::Else, first, second) => {
            step_else(first, second, place, group, line, draft)
        }
        Rule::Bracket(BracketKind::And, first, second) => {
            step_and(first, second, place, group, line, draft)
        }
    }
}

// A `once` waits while its own node heads the group; else its duty runs.
#[cycle(steps)]
fn step_once(
    start: &Pattern,
    end: &Pattern,
    duty: &Rule,
    place: Place,
    group: Group,
    line: &Line,
    draft: &mut Draft,
) -> Outcome
    requires { Placed place (trigger Once (pure_pattern start.now) (pure_pattern end.now) (pure_rule duty.now)) }
    ensures { StepsAt (trigger Once (pure_pattern start.now) (pure_pattern end.now) (pure_rule duty.now)) place group.entry.entries.now line.now draft.old result draft.new }
{
    let head = group.head();
    if head.node == place.node {
        step_waiting(start, end, duty, place, &head.letters, line, draft)
    } else {
        step_rule(duty, place.inside(1), group.entries, line, draft)
    }
}

// An `each` and its duties: a breach of one breaches it.
#[cycle(steps)]
fn step_each(
    start: &Pattern,
    end: &Pattern,
    duty: &Rule,
    place: Place,
    group: Group,
    line: &Line,
    draft: &mut Draft,
) -> Outcome
    requires { Placed place (trigger Each (pure_pattern start.now) (pure_pattern end.now) (pure_rule duty.now)) }
    ensures { StepsAt (trigger Each (pure_pattern start.now) (pure_pattern end.now) (pure_rule duty.now)) place group.entry.entries.now line.now draft.old result draft.new }
{
    let head = group.head();
    let letters = &head.letters;
    let effect = each_effect(start, end, head.mark, letters, line);
    let count = draft.count();
    draft.write(place, ends_each(effect), letters);
    let inner = place.below(1);
    match step_duties(duty, inner, group.below(), line, draft) {
        Outcome::Breached => {
            draft.cut(count);
            Outcome::Breached
        }
        left => close_each(effect, left, duty, inner, count, draft),
    }
}

// The duties of an `each`, oldest first: satisfied when none is left. On an idle line they
// are only copied.
#[cycle(steps)]
fn step_duties(
    duty: &Rule,
    place: Place,
    below: &[Entry],
    line: &Line,
    draft: &mut Draft,
) -> Outcome
    requires { Placed place (pure_rule duty.now) }
    ensures { DutiesStepAt (pure_rule duty.now) place below.now line.now draft.old result draft.new }
{
    if passed_by(duty, line) && stands_at(below, place.level) {
        return keep_duties(below, draft);
    }
    let mut left = Outcome::Satisfied;
    let mut rest = below;
    while !rest.is_empty() {
        let (group, others) = split_group(rest);
        match step_rule(duty, place, group, line, draft) {
            Outcome::Satisfied => {}
            Outcome::Breached => return Outcome::Breached,
            Outcome::Open => left = Outcome::Open,
        }
        rest = others;
    }
    left
}

// An `else` is in its first rule while its own node heads the group; a breach there begins the second rule, which
// is not shown the line.
#[cycle(steps)]
fn step_else(
    first: &Rule,
    second: &Rule,
    place: Place,
    group: Group,
    line: &Line,
    draft: &mut Draft,
) -> Outcome
    requires { Placed place (bracket Else (pure_rule first.now) (pure_rule second.now)) }
    ensures { StepsAt (bracket Else (pure_rule first.now) (pure_rule second.now)) place group.entry.entries.now line.now draft.old result draft.new }
{
    let head = group.head();
    if head.node != place.node {
        let substitute = place.inside(1 + count_nodes(first));
        return step_rule(second, substitute, group.entries, line, draft);
    }
    let letters = &head.letters;
    let count = draft.count();
    draft.write(place, false, letters);
    match step_rule(first, place.below(1), group.below(), line, draft) {
        Outcome::Satisfied => {
            draft.cut(count);
            Outcome::Satisfied
        }
        Outcome::Breached => {
            draft.cut(count);
            let substitute = place.inside(1 + count_nodes(first));
            open_rule(second, substitute, letters, draft);
            Outcome::Open
        }
        Outcome::Open => Outcome::Open,
    }
}

// An `and` has both sides while its own node heads the group; else the node tells which side is left.
#[cycle(steps)]
fn step_and(
    left: &Rule,
    right: &Rule,
    place: Place,
    group: Group,
    line: &Line,
    draft: &mut Draft,
) -> Outcome
    requires { Placed place (bracket And (pure_rule left.now) (pure_rule right.now)) }
    ensures { StepsAt (bracket And (pure_rule left.now) (pure_rule right.now)) place group.entry.entries.now line.now draft.old result draft.new }
{
    let node = group.head().node;
    if node == place.node {
        return step_both(left, right, place, group, line, draft);
    }
    let other = place.inside(1 + count_nodes(left));
    if node < other.node {
        step_rule(left, place.inside(1), group.entries, line, draft)
    } else {
        step_rule(right, other, group.entries, line, draft)
    }
}

// Both sides of an `and`. Where the line satisfies one of them, the other takes the bracket's place, and so it is
// stepped again, at the bracket's own level.
#[cycle(steps)]
fn step_both(
    left: &Rule,
    right: &Rule,
    place: Place,
    group: Group,
    line: &Line,
    draft: &mut Draft,
) -> Outcome
    requires { Placed place (bracket And (pure_rule left.now) (pure_rule right.now)) }
    ensures { BothStepAt (pure_rule left.now) (pure_rule right.now) place group.entry.entries.now line.now draft.old result draft.new }
{
    let (first, second) = split_group(group.below());
    let ahead = 1 + count_nodes(left);
    let count = draft.count();
    draft.write(place, false, &group.head().letters);
    let a = step_rule(left, place.below(1), first, line, draft);
    let b = step_rule(right, place.below(ahead), second, line, draft);
    match sides_of(a, b) {
        Sides::Both => Outcome::Open,
        Sides::Breached => {
            draft.cut(count);
            Outcome::Breached
        }
        Sides::Satisfied => {
            draft.cut(count);
            Outcome::Satisfied
        }
        Sides::Left => {
            draft.cut(count);
            step_rule(left, place.inside(1), first, line, draft)
        }
        Sides::Right => {
            draft.cut(count);
            step_rule(right, place.inside(ahead), second, line, draft)
        }
    }
}
