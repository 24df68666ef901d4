// What a token of a book text means: a terminal of the grammar.
ghost use Rattle.std.specs.Prelude.{◌≡◌};
ghost use Rattle.book.specs.Text.{symbol_terminal};

use crate::refusals::{Fault, Reason};
use crate::terms::{BracketKind, DutyKind, Letter, Sign, TriggerKind};
use feed::fields::Field;
use tokens::token::Symbol;

#[derive(Clone, Copy, Debug, PartialEq, Eq)]
pub enum Terminal {
    // `must` or `mustnot`
    Duty(DutyKind),
    Before,
    // `each` or `once`
    Trigger(TriggerKind),
    Until,
    Then,
    // `else` or `and`
    Joint(BracketKind),
    Never,
    If,
    Named(Field),
    Lettered(Letter),
    Numeral(u32),
    // `<=`, `>=` or `=`
    Compare(Sign),
    Plus,
    Times,
    Comma,
    Semicolon,
    Open,
    Close,
    OpenSquare,
    CloseSquare,
    // the end of the text
    End,
}

impl From<Symbol> for Terminal {
    ghost from_gives = { λ s t. t ≡ symbol_terminal s };

    fn from(symbol: Symbol) -> Terminal {
        match symbol {
            Symbol::AtMost => Terminal::Compare(Sign::AtMost),
            Symbol::AtLeast => Terminal::Compare(Sign::AtLeast),
            Symbol::Equal => Terminal::Compare(Sign::Equal),
            Symbol::Plus => Terminal::Plus,
            Symbol::Times => Terminal::Times,
            Symbol::Comma => Terminal::Comma,
            Symbol::Semicolon => Terminal::Semicolon,
            Symbol::Open => Terminal::Open,
            Symbol::Close => Terminal::Close,
            Symbol::OpenSquare => Terminal::OpenSquare,
            Symbol::CloseSquare => Terminal::CloseSquare,
        }
    }
}

// A terminal with its place.
#[derive(Clone, Copy, Debug, PartialEq, Eq)]
pub struct Seen {
    pub terminal: Terminal,
    pub place: usize,
}

impl Seen {
    // The fault of this token.
    pub(crate) fn fault(self, reason: Reason) -> Fault
        ensures { result ≡ record { reason = reason; place = self.place } }
    {
        Fault {
            reason,
            place: self.place,
        }
    }
}
