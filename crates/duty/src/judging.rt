// One line for the rules of a book, in order. The line and its number stay apart: they come apart from the caller, a
// rule's step takes the line alone, and its verdict the number alone.
ghost use Rattle.std.specs.Prelude.{◌≡◌, ◌+◌, ◌≤◌, [], length, vec_len, vec_capacity};
ghost use Rattle.book.specs.Sizes.{WithinLimits};
ghost use Rattle.book.specs.Trees.{pure_rule, pure_rules};
ghost use Rattle.duty.specs.Kinds.{Covers, CoversEach};
ghost use Rattle.duty.specs.Places.{Placed};
ghost use Rattle.duty.specs.Judging.{verdict_at, Judges, JudgesAll, JudgedRules};

use crate::drafts::Draft;
use crate::entries::Entry;
use crate::findings::Findings;
use crate::groups::split_group;
use crate::kinds::Kinds;
use crate::openings::open_rule;
use crate::outcomes::Outcome;
use crate::places::Place;
use crate::stepping::step_rule;
use crate::verdicts::Verdict;
use book::rules::Rule;
use feed::lines::Line;

// Where a rule of a book stands: its nodes are numbered from 1, its entries start at level 0, and at most eight
// nodes stand inside one another.
const RULE: Place = Place {
    node: 1,
    level: 0,
    budget: 8,
};

// A rule's verdict after a line, and the entries of the rules after it.
#[derive(Clone, Copy)]
pub(crate) struct Judged<'a> {
    pub verdict: Verdict,
    pub rest: &'a [Entry],
}

fn verdict_at(outcome: Outcome, number: u32) -> Verdict
    ensures { result ≡ verdict_at outcome number }
{
    match outcome {
        Outcome::Satisfied => Verdict::Satisfied(number),
        Outcome::Breached => Verdict::Breached(number),
        Outcome::Open => Verdict::Pending,
    }
}

// One line for a rule, where `kinds` has the kinds of line that concern it: a line of another kind leaves its
// entries. A decided rule stays so, and has no entries.
fn judge_rule<'a>(
    rule: &Rule,
    kinds: &Kinds,
    verdict: Verdict,
    entries: &'a [Entry],
    line: &Line,
    number: u32,
    draft: &mut Draft,
) -> Judged<'a>
    requires placed { Placed RULE (pure_rule rule.now) }
    requires covered { Covers kinds.now (pure_rule rule.now) }
    ensures { Judges (pure_rule rule.now) verdict entries.now line.now number draft.old result draft.new }
{
    // (By a pattern: with `!=` the search gives up at its limit where a decided verdict is handed on.)
    let Verdict::Pending = verdict else {
        return Judged {
            verdict,
            rest: entries,
        };
    };
    let (group, rest) = split_group(entries);
    if !kinds.has(line.kind) {
        draft.extend(group);
        return Judged { verdict, rest };
    }
    let outcome = step_rule(rule, RULE, group, line, draft);
    Judged {
        verdict: verdict_at(outcome, number),
        rest,
    }
}

// Writes what is found of the rules after one more line, where `each` has the kinds of line that concern each rule.
pub(crate) fn judge_rules(
    rules: &[Rule],
    each: &[Kinds],
    found: &Findings,
    line: &Line,
    number: u32,
    next: &mut Findings,
)
    requires within { WithinLimits (pure_rules rules.now) }
    requires covered { CoversEach each.now (pure_rules rules.now) }
    requires judged { vec_len found.now.verdicts ≡ length rules.now }
    requires room { vec_len next.old.verdicts + length rules.now ≤ vec_capacity next.old.verdicts }
    ensures len { vec_len next.new.verdicts ≡ vec_len next.old.verdicts + length rules.now }
    ensures capacity { vec_capacity next.new.verdicts ≡ vec_capacity next.old.verdicts }
    ensures all { JudgesAll (pure_rules rules.now) found.now.verdicts.items found.now.sheet.entries.items line.now number next.old.verdicts.items next.old.sheet next.new.verdicts.items next.new.sheet }
{
    let mut rest = found.sheet.entries.as_slice();
    for ((rule, kinds), verdict) in rules.iter().zip(each).zip(&found.verdicts) {
        let judged = judge_rule(rule, kinds, *verdict, rest, line, number, &mut next.sheet);
        next.verdicts.push_reserved(judged.verdict);
        rest = judged.rest;
    }
}

// Writes what is found of the rules before any line.
pub(crate) fn open_rules(rules: &[Rule], found: &mut Findings)
    requires within { WithinLimits (pure_rules rules.now) }
    requires room { vec_len found.old.verdicts + length rules.now ≤ vec_capacity found.old.verdicts }
    ensures len { vec_len found.new.verdicts ≡ vec_len found.old.verdicts + length rules.now }
    ensures capacity { vec_capacity found.new.verdicts ≡ vec_capacity found.old.verdicts }
    ensures all { JudgedRules (pure_rules rules.now) [] found.old.verdicts.items found.new.verdicts.items found.old.sheet found.new.sheet }
{
    for rule in rules {
        open_rule(rule, RULE, &[None; 8], &mut found.sheet);
        found.verdicts.push_reserved(Verdict::Pending);
    }
}
