// Sets of letters and of fields.
ghost use Rattle.std.specs.Prelude.{◌≡◌, ℕ, ◌<◌};
ghost use Rattle.book.specs.Letters.{letter_index};
ghost use Rattle.book.specs.Sets.{empty, holds, joined, field_index, with_operand, with_binders, with_pattern};
ghost use Rattle.book.specs.Trees.{pure_pattern};

use crate::rules::Pattern;
use crate::terms::{Binder, Letter, Operand};
use feed::fields::Field;

// A kind of which there are N, each with its place among them, from 0.
pub(crate) trait Placed<const N: usize> {
    ghost place: { Self → ℕ };

    fn place(self) -> usize
        ensures value { result ≡ place self }
        ensures bound { result < N };
}

impl Placed<8> for Letter {
    ghost place = { letter_index };

    fn place(self) -> usize {
        self.index()
    }
}

impl Placed<6> for Field {
    ghost place = { field_index };

    fn place(self) -> usize {
        self as usize
    }
}

// For each of the N of a kind, whether it is in the set.
#[derive(Clone, Copy, Debug, PartialEq, Eq)]
pub struct Set<const N: usize> {
    pub held: [bool; N],
}

pub type Letters = Set<8>;

pub type Fields = Set<6>;

impl<const N: usize> Set<N> {
    pub(crate) fn none() -> Set<N>
        ensures { result ≡ empty N }
    {
        Set { held: [false; N] }
    }

    pub(crate) fn has<K: Placed<N>>(self, member: K) -> bool
        ensures { result ≡ holds self.entry (K.place member) }
    {
        self.held[member.place()]
    }

    // The set with one member more.
    pub(crate) fn with<K: Placed<N>>(self, member: K) -> Set<N>
        ensures { result ≡ joined self.entry (K.place member) }
    {
        let mut held = self.held;
        held[member.place()] = true;
        Set { held }
    }
}

impl Letters {
    // The set with the letter that an operand binds.
    pub(crate) fn with_operand(self, operand: Operand) -> Letters
        ensures { result ≡ with_operand self operand }
    {
        match operand {
            Operand::Number(_) => self,
            Operand::Bound(letter) => self.with(letter),
        }
    }

    // The set with the letters that binders bind.
    pub(crate) fn with_binders(self, binders: &[Binder]) -> Letters
        ensures { result ≡ with_binders self binders.now }
    {
        let mut all = self;
        for binder in binders {
            all = all.with_operand(binder.operand);
        }
        all
    }

    // The set with the letters that a pattern binds.
    pub(crate) fn with_pattern(self, pattern: &Pattern) -> Letters
        ensures { result ≡ with_pattern self (pure_pattern pattern.now) }
    {
        match pattern {
            Pattern::Never => self,
            Pattern::Lines {
                binders,
                conditions: _,
            } => self.with_binders(binders),
        }
    }
}
