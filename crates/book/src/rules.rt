// Rules as a book holds them, in the order and the form in which they were written.
use crate::terms::{Binder, BracketKind, Condition, DutyKind, TriggerKind};

#[derive(Drop)]
pub enum Pattern {
    Never,
    Lines {
        binders: Vec<Binder>,
        conditions: Vec<Condition>,
    },
}

#[derive(Drop)]
pub enum Rule {
    // `must` or `mustnot`: the act, then the deadline
    Duty(DutyKind, Pattern, Pattern),
    // `each` or `once`: the start, the end, then the duty
    Trigger(TriggerKind, Pattern, Pattern, Box<Rule>),
    // `else` or `and`
    Bracket(BracketKind, Box<Rule>, Box<Rule>),
}
