// Patterns against lines.
// The letters and the line stay apart: the letters are of an entry or newly bound, the line is the caller's, and each
// function that took them as one would take them apart.
ghost use Rattle.std.specs.Prelude.{◌≡◌, ◌*◌, ◌^◌, ◌<◌, ◌≤◌, T, if◌then◌else◌, Some, None, unwrap_or};
ghost use Rattle.feed.specs.Lines.{value};
ghost use Rattle.book.specs.Sizes.{part_number, sum_number, conditions_number};
ghost use Rattle.book.specs.Trees.{pure_pattern};
ghost use Rattle.duty.specs.Clashes.{clashes, ruled_out};
ghost use Rattle.duty.specs.Matching.{Bindings, bound, part_value, sum_value, holds, all_hold, agrees, bind, matches, effect, Limited};

use crate::entries::Letters;
use book::rules::Pattern;
use book::terms::{Binder, Condition, Letter, Operand, Part, Sign, Sum};
use feed::lines::Line;

// What a line does to a rule that stands between two patterns: the second ends it, the first acts, with the
// letters that it then gives, or neither matches.
#[derive(Clone, Copy)]
pub(crate) enum Effect {
    Ends,
    Acts(Letters),
    Passes,
}

// What a letter is bound to; a condition of a book speaks of bound letters alone.
fn letter_value(letter: Letter, letters: &Letters) -> u64
    ensures value { result ≡ unwrap_or (bound letters.now letter) 0 }
    ensures limit { result < 2 ^ 32 }
{
    u64::from(letters[letter.index()].unwrap_or(0))
}

// The numbers of a book are at most 9,999,999 and a letter has 32 bits, so that three parts fit 64 bits.
fn part_value(part: Part, letters: &Letters) -> u64
    requires { part_number part ≤ 9999999 }
    ensures value { result ≡ part_value letters.now part }
    ensures bound { result ≤ 9999999 * 2 ^ 32 }
{
    match part {
        Part::Number(number) => u64::from(number),
        Part::Bound(letter) => letter_value(letter, letters),
        Part::Product(number, letter) => u64::from(number) * letter_value(letter, letters),
    }
}

fn sum_value(sum: Sum, letters: &Letters) -> u64
    requires { sum_number sum ≤ 9999999 }
    ensures { result ≡ sum_value letters.now sum }
{
    match sum {
        Sum::One(x) => part_value(x, letters),
        Sum::Two(x, y) => part_value(x, letters) + part_value(y, letters),
        Sum::Three(x, y, z) => part_value(x, letters)
            + part_value(y, letters)
            + part_value(z, letters),
    }
}

fn condition_holds(condition: Condition, letters: &Letters) -> bool
    requires left { sum_number condition.left ≤ 9999999 }
    requires right { sum_number condition.right ≤ 9999999 }
    ensures { result ≡ holds letters.now condition }
{
    let left = sum_value(condition.left, letters);
    let right = sum_value(condition.right, letters);
    match condition.sign {
        Sign::AtMost => left <= right,
        Sign::AtLeast => left >= right,
        Sign::Equal => left == right,
    }
}

fn all_hold(conditions: &[Condition], letters: &Letters) -> bool
    requires { conditions_number conditions.now ≤ 9999999 }
    ensures { result ≡ all_hold letters.now conditions.now }
{
    conditions
        .iter()
        .all(|condition| condition_holds(*condition, letters))
}

// Binds what a binder adds to the letters, if it agrees with the line. The letters are written in place, and the
// answer stands beside them, here and in `all_bind`: no line may take longer than it did, and on a full sheet an entry
// takes 45 ns so, and 65 where the letters are answered by value.
fn binds(binder: Binder, line: &Line, letters: &mut Letters) -> bool
    ensures { (if result then Some letters.new else None) ≡ agrees binder.operand (value line.now binder.field) letters.old }
{
    let value = line.value(binder.field);
    match binder.operand {
        Operand::Number(number) => number == value,
        Operand::Bound(letter) => match letters[letter.index()] {
            Some(number) => number == value,
            None => {
                letters[letter.index()] = Some(value);
                true
            }
        },
    }
}

// Binds what the binders add to the letters, if all of them agree with the line. A loop, and no `all`: of a closure
// that changes what it captures, the letters here, a proof learns nothing.
fn all_bind(binders: &[Binder], line: &Line, letters: &mut Letters) -> bool
    ensures { (if result then Some letters.new else None) ≡ bind binders.now line.now letters.old }
{
    for binder in binders {
        if !binds(*binder, line, letters) {
            return false;
        }
    }
    true
}

// A binder that cannot agree under these letters, whatever else is bound: its number, or that of its bound letter,
// is not in the line.
fn disagrees(binder: Binder, line: &Line, letters: &Letters) -> bool
    ensures { result ≡ clashes binder.operand (value line.now binder.field) letters.now }
{
    let value = line.value(binder.field);
    match binder.operand {
        Operand::Number(number) => number != value,
        Operand::Bound(letter) => { letters[letter.index()].is_some_and(|number| number != value) }
    }
}

// Most lines are ruled out by a binder, before any letter is copied.
fn ruled_out(binders: &[Binder], line: &Line, letters: &Letters) -> bool
    ensures { result ≡ ruled_out binders.now line.now letters.now }
{
    binders
        .iter()
        .any(|binder| disagrees(*binder, line, letters))
}

// The letters that a match gives, enlarged by the new ones.
#[tactic(auto, using(crate::proofs::Matches::ruled_out_none), unfolding(crate::specs::Matching::matches))]
pub(crate) fn matched(pattern: &Pattern, line: &Line, letters: &Letters) -> Option<Letters>
    requires { Limited (pure_pattern pattern.now) }
    ensures { result ≡ matches (pure_pattern pattern.now) line.now letters.now }
{
    match pattern {
        Pattern::Never => None,
        Pattern::Lines {
            binders,
            conditions,
        } => {
            if ruled_out(binders, line, letters) {
                return None;
            }
            let mut bound = *letters;
            if all_bind(binders, line, &mut bound) && all_hold(conditions, &bound) {
                Some(bound)
            } else {
                None
            }
        }
    }
}

// The deadline or end is tested first.
#[tactic(auto, unfolding(crate::specs::Matching::effect))]
pub(crate) fn effect_of(act: &Pattern, end: &Pattern, line: &Line, letters: &Letters) -> Effect
    requires act { Limited (pure_pattern act.now) }
    requires end { Limited (pure_pattern end.now) }
    ensures { result ≡ effect (pure_pattern act.now) (pure_pattern end.now) letters.now line.now }
{
    if matched(end, line, letters).is_some() {
        return Effect::Ends;
    }
    matched(act, line, letters).map_or(Effect::Passes, Effect::Acts)
}

// A pattern that does not match this line under any letters, since a number of it is not in the line.
#[tactic(auto, using(crate::proofs::Matches::ruled_out_always), unfolding(crate::specs::Matching::matches))]
pub(crate) fn never_matches(pattern: &Pattern, line: &Line) -> bool
    ensures { T result → (f : Bindings) → matches (pure_pattern pattern.now) line.now f ≡ None }
{
    match pattern {
        Pattern::Never => true,
        Pattern::Lines { binders, .. } => ruled_out(binders, line, &[None; 8]),
    }
}
