// Rules of which no line has been seen.
ghost use Rattle.std.specs.Prelude.{◌≡◌, ◌≤◌};
ghost use Rattle.book.specs.Sizes.{nodes};
ghost use Rattle.book.specs.Trees.{pure_rule};
ghost use Rattle.duty.specs.Open.{start, entries};
ghost use Rattle.duty.specs.Drafts.{Adds};
ghost use Rattle.duty.specs.Places.{Placed};

use crate::drafts::Draft;
use crate::entries::Letters;
use crate::places::Place;
use book::rules::Rule;
use book::terms::BracketKind;

// How many nodes a rule has.
pub(crate) fn count_nodes(rule: &Rule) -> u8
    requires { nodes (pure_rule rule.now) ≤ 255 }
    ensures { result ≡ nodes (pure_rule rule.now) }
{
    match rule {
        Rule::Duty(_, _, _) => 1,
        Rule::Trigger(_, _, _, duty) => 1 + count_nodes(duty),
        Rule::Bracket(_, first, second) => 1 + count_nodes(first) + count_nodes(second),
    }
}

// Writes the entries of a rule that begins under these letters.
pub(crate) fn open_rule(rule: &Rule, place: Place, letters: &Letters, draft: &mut Draft)
    requires { Placed place (pure_rule rule.now) }
    ensures { Adds draft.old draft.new (entries (pure_rule rule.now) place.node place.level (start (pure_rule rule.now) letters.now)) }
{
    draft.write(place, false, letters);
    if let Rule::Bracket(kind, first, second) = rule {
        open_rule(first, place.below(1), letters, draft);
        if let BracketKind::And = kind {
            let place = place.below(1 + count_nodes(first));
            open_rule(second, place, letters, draft);
        }
    }
}
