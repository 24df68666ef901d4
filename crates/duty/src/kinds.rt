// Sets of kinds. A pattern that asks for a kind by its number matches lines of that kind alone, so that a rule is
// concerned by the lines of a few kinds, known before any line.
ghost use Rattle.std.specs.Prelude.{◌≡◌, ℕ, ◌<◌, false, IfSome, IfOk, None, ◌≢◌};
ghost use Rattle.feed.specs.declared.fields.Field.TheVariants.{Kind};
ghost use Rattle.feed.specs.declared.lines.Line.{Line};
ghost use Rattle.book.specs.Trees.{pure_pattern, pure_rule, pure_rules};
ghost use Rattle.book.specs.declared.terms.Operand.TheVariants.{Number};
ghost use Rattle.duty.specs.Matching.{Bindings, bind};
ghost use Rattle.duty.specs.Untouched.{Unmatched, Untouched};
ghost use Rattle.duty.specs.Kinds.{has_kind, Widened, Covers, CoversAll, CoversEach};

use book::rules::{Pattern, Rule};
use book::terms::{Binder, Operand};
use feed::fields::Field;
use std::alloc::{AllocError, Global};

// A set of kinds, which go from 0 to 999.
#[derive(Drop)]
pub(crate) struct Kinds {
    listed: [bool; 1000],
}

// The kind that a binder asks for by its number.
fn kind_number(binder: Binder) -> Option<u32>
    ensures { IfSome result (λ n. (binder.field ≡ Kind) × (binder.operand ≡ Number n)) }
{
    match (binder.field, binder.operand) {
        (Field::Kind, Operand::Number(number)) => Some(number),
        _ => None,
    }
}

// A kind that the binders ask for by its number: on a line of another kind they never agree.
#[tactic(auto, using(crate::proofs::Sets::other_kind))]
fn kind_asked(binders: &[Binder]) -> Option<u32>
    ensures { IfSome result (λ n. (l : Line) → (l.kind ≢ n) → (f : Bindings) → bind binders.now l f ≡ None) }
{
    binders.iter().find_map(|binder| kind_number(*binder))
}

impl Kinds {
    // Whether a kind is in the set.
    pub(crate) fn has(&self, kind: u16) -> bool
        requires { kind < 1000 }
        ensures { result ≡ has_kind self.now kind }
    {
        self.listed[kind as usize]
    }

    // One kind more; no line has a kind above 999.
    fn add(&mut self, kind: u32)
        ensures { (k : ℕ) → k < 1000 → has_kind self.new k ≡ false → (has_kind self.old k ≡ false) × (k ≢ kind) }
    {
        if kind < 1000 {
            self.listed[kind as usize] = true;
        }
    }

    // Every kind of line that the pattern may match: all of them, unless it asks for one.
    fn add_pattern(&mut self, pattern: &Pattern)
        ensures { Widened self.old self.new (Unmatched (pure_pattern pattern.now)) }
    {
        match pattern {
            Pattern::Never => {}
            Pattern::Lines { binders, .. } => match kind_asked(binders) {
                Some(kind) => self.add(kind),
                None => self.listed = [true; 1000],
            },
        }
    }

    // Every kind of line that a pattern of the rule may match.
    fn add_rule(&mut self, rule: &Rule)
        ensures { Widened self.old self.new (Untouched (pure_rule rule.now)) }
    {
        match rule {
            Rule::Duty(_, act, deadline) => {
                self.add_pattern(act);
                self.add_pattern(deadline);
            }
            Rule::Trigger(_, start, end, duty) => {
                self.add_pattern(start);
                self.add_pattern(end);
                self.add_rule(duty);
            }
            Rule::Bracket(_, first, second) => {
                self.add_rule(first);
                self.add_rule(second);
            }
        }
    }

    fn none() -> Kinds {
        Kinds {
            listed: [false; 1000],
        }
    }

    // The kinds of line that concern a rule.
    fn of_rule(rule: &Rule) -> Kinds
        ensures { Covers result (pure_rule rule.now) }
    {
        let mut kinds = Kinds::none();
        kinds.add_rule(rule);
        kinds
    }

    // The kinds of line that concern each rule, in order.
    #[tactic(auto, using(crate::proofs::Sets::each_covered))]
    pub(crate) fn of_each(heap: Global, rules: &[Rule]) -> Result<Vec<Kinds>, AllocError>
        ensures { IfOk result (λ kss. CoversEach kss.items (pure_rules rules.now)) }
    {
        rules.iter().map(Kinds::of_rule).collect(heap)
    }

    // The kinds of line that concern some rule.
    pub(crate) fn of_rules(rules: &[Rule]) -> Kinds
        ensures { CoversAll result (pure_rules rules.now) }
    {
        let mut kinds = Kinds::none();
        for rule in rules {
            kinds.add_rule(rule);
        }
        kinds
    }
}
