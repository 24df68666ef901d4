// Reads rules, node by node.
ghost use Rattle.std.specs.Prelude.{◌≡◌, ℕ, ◌<◌, IfOk, OnOk};
ghost use Rattle.book.specs.declared.terminals.Terminal.TheVariants.{Duty, Trigger, Open};
ghost use Rattle.book.specs.Rules.{Rule as RuleMeant};
ghost use Rattle.book.specs.Grammar.{spot, rule_items};
ghost use Rattle.book.specs.Sizes.{nodes as size};
ghost use Rattle.book.specs.Faults.{HasRoom};
ghost use Rattle.book.specs.Nodes.{spot_at, inside, opening_items, joint_items, Continued, Counted};
ghost use Rattle.book.specs.Readers.{coming, Told, ToldBy};
ghost use Rattle.book.specs.Trees.{pure_rule};

use crate::openings::Opening;
use crate::places::{Nested, Nodes, Place};
use crate::reader::Reader;
use crate::refusals::{Fault, Reason, Refusal};
use crate::rules::Rule;
use crate::sets::Letters;
use crate::terminals::Terminal;
use crate::terms::{BracketKind, DutyKind, TriggerKind};

impl Reader<'_> {
    // `else` or `and`.
    fn read_joint(&mut self) -> Result<BracketKind, Fault>
        ensures { Told BracketKind joint_items (coming self.old) result (coming self.new) }
    {
        let seen = self.next()?;
        let Terminal::Joint(kind) = seen.terminal else {
            return Err(seen.fault(Reason::NotAllowed));
        };
        Ok(kind)
    }

    // The first token of a rule.
    fn read_opening(&mut self, place: Place, nodes: &Nodes) -> Result<Opening, Fault>
        ensures told { Told Opening (opening_items place.rule nodes.now.begun place.around) (coming self.old) result (coming self.new) }
        ensures room { OnOk result (HasRoom nodes.now.begun place.around) }
    {
        let seen = self.next()?;
        let opening = Opening::of(seen.terminal).ok_or(seen.fault(Reason::NotAllowed))?;
        place
            .check_node(nodes)
            .map_err(|reason| seen.fault(reason))?;
        Ok(opening)
    }

    // The rest of `must` or `mustnot`.
    fn read_duty(&mut self, bound: Letters, kind: DutyKind) -> Result<Rule, Refusal>
        ensures told { (rule nodes around : ℕ) → Continued (spot rule nodes around bound) (Duty kind) (coming self.old) result (coming self.new) }
        ensures alone { IfOk result (λ x. size (pure_rule x) ≡ 1) }
    {
        let act = self.read_pattern(bound)?;
        self.expect(Terminal::Before)?;
        let deadline = self.read_pattern(bound)?;
        Ok(Rule::Duty(kind, act, deadline))
    }

    // A rule. `nodes` counts those begun so far in the book.
    #[cycle(readers)]
    pub(crate) fn read_rule(
        &mut self,
        place: &mut Place,
        nodes: &mut Nodes,
    ) -> Result<Rule, Refusal>
        ensures told { ToldBy Rule RuleMeant pure_rule (rule_items (spot_at place.old nodes.old)) (coming self.old) result (coming self.new) }
        ensures stays { place.new ≡ place.old }
        ensures counted { Counted nodes.old result nodes.new }
    {
        // Not counted here once for all: what the readers of brackets and triggers promise starts from the count before the node.
        match self.read_opening(*place, nodes)? {
            Opening::Duty(kind) => {
                nodes.begun += 1;
                self.read_duty(place.bound, kind)
            }
            Opening::Trigger(kind) => self.read_trigger(place, nodes, kind),
            Opening::Bracket => self.read_bracket(place, nodes),
        }
    }

    // The rest of a bracket.
    #[cycle(readers)]
    fn read_bracket(&mut self, place: &mut Place, nodes: &mut Nodes) -> Result<Rule, Refusal>
        requires { HasRoom nodes.old.begun place.old.around }
        ensures told { Continued (spot_at place.old nodes.old) Open (coming self.old) result (coming self.new) }
        ensures stays { place.new ≡ place.old }
        ensures counted { Counted nodes.old result nodes.new }
    {
        nodes.begun += 1;
        let bound = place.bound;
        let left = self.read_inside(place, bound, nodes)?;
        let kind = self.read_joint()?;
        let right = self.read_inside(place, bound, nodes)?;
        self.expect(Terminal::Close)?;
        Ok(Rule::Bracket(
            kind,
            Box::new(self.heap, left)?,
            Box::new(self.heap, right)?,
        ))
    }

    // The rest of `each` or `once`.
    #[cycle(readers)]
    fn read_trigger(
        &mut self,
        place: &mut Place,
        nodes: &mut Nodes,
        kind: TriggerKind,
    ) -> Result<Rule, Refusal>
        requires { HasRoom nodes.old.begun place.old.around }
        ensures told { Continued (spot_at place.old nodes.old) (Trigger kind) (coming self.old) result (coming self.new) }
        ensures stays { place.new ≡ place.old }
        ensures counted { Counted nodes.old result nodes.new }
    {
        nodes.begun += 1;
        let start = self.read_pattern(place.bound)?;
        self.expect(Terminal::Until)?;
        let end = self.read_pattern(place.bound)?;
        self.expect(Terminal::Then)?;
        let inner = place.bound.with_pattern(&start);
        let duty = self.read_inside(place, inner, nodes)?;
        Ok(Rule::Trigger(kind, start, end, Box::new(self.heap, duty)?))
    }

    // A rule inside the node that stands at a place, where these letters are bound.
    #[cycle(readers)]
    fn read_inside(
        &mut self,
        place: &mut Place,
        bound: Letters,
        nodes: &mut Nodes,
    ) -> Result<Rule, Refusal>
        requires { place.old.around < 8 }
        ensures told { ToldBy Rule RuleMeant pure_rule (rule_items (inside place.old nodes.old bound)) (coming self.old) result (coming self.new) }
        ensures stays { place.new ≡ place.old }
        ensures counted { Counted nodes.old result nodes.new }
    {
        let former = *place;
        let nested = Nested { place, former };
        nested.place.around = former.around + 1;
        nested.place.bound = bound;
        self.read_rule(nested.place, nodes)
    }
}
