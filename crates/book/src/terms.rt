// What rules are written with: letters, binders, conditions, and the kinds of rules.
ghost use Rattle.std.specs.Prelude.{◌≡◌, ◌<◌};
ghost use Rattle.book.specs.Letters.{letter_index};

use feed::fields::Field;

// A letter that a pattern may bind.
#[derive(Clone, Copy, Debug, PartialEq, Eq)]
pub enum Letter {
    A,
    B,
    C,
    D,
    E,
    F,
    G,
    H,
}

impl Letter {
    // The letter's place among the eight, from 0.
    pub fn index(self) -> usize
        ensures value { result ≡ letter_index self }
        ensures bound { result < 8 }
    {
        self as usize
    }
}

// What a binder asks of its field.
#[derive(Clone, Copy, Debug, PartialEq, Eq)]
pub enum Operand {
    Number(u32),
    Bound(Letter),
}

#[derive(Clone, Copy, Debug, PartialEq, Eq)]
pub struct Binder {
    pub field: Field,
    pub operand: Operand,
}

// A part of a sum: a number, a letter, or a number times a letter.
#[derive(Clone, Copy, Debug, PartialEq, Eq)]
pub enum Part {
    Number(u32),
    Bound(Letter),
    Product(u32, Letter),
}

// One to three parts.
#[derive(Clone, Copy, Debug, PartialEq, Eq)]
pub enum Sum {
    One(Part),
    Two(Part, Part),
    Three(Part, Part, Part),
}

#[derive(Clone, Copy, Debug, PartialEq, Eq)]
pub enum Sign {
    AtMost,
    AtLeast,
    Equal,
}

#[derive(Clone, Copy, Debug, PartialEq, Eq)]
pub struct Condition {
    pub left: Sum,
    pub sign: Sign,
    pub right: Sum,
}

// `must` asks for the act before the deadline; `mustnot` bans it until then.
#[derive(Clone, Copy, Debug, PartialEq, Eq)]
pub enum DutyKind {
    Must,
    MustNot,
}

// `each` opens a duty at every match, `once` at the first alone.
#[derive(Clone, Copy, Debug, PartialEq, Eq)]
pub enum TriggerKind {
    Each,
    Once,
}

// `else` holds a rule and its substitute, `and` two rules side by side.
#[derive(Clone, Copy, Debug, PartialEq, Eq)]
pub enum BracketKind {
    Else,
    And,
}
