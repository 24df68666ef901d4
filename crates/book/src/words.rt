// What the tokens of a text mean.
ghost use Rattle.std.specs.Prelude.{◌≡◌};
ghost use Rattle.tokens.specs.Tokens.{stretch_of};
ghost use Rattle.book.specs.Text.{word_of, number_of, leading_zero, meaning};

use crate::refusals::Reason;
use crate::terminals::Terminal;
use crate::terms::{BracketKind, DutyKind, Letter, TriggerKind};
use feed::fields::Field;
use tokens::token::Token;

// The largest number that a book may have.
const LARGEST: u32 = 9_999_999;

// What a word means: a word of the grammar, the name of a field, or a letter. (One match, and no table to walk: a letter
// would be found behind all the words.)
#[tactic(auto, unfolding(crate::specs::Text::word_of))]
fn word_terminal(w: &[u8]) -> Result<Terminal, Reason>
    ensures { result ≡ word_of w.now }
{
    Ok(match w {
        b"must" => Terminal::Duty(DutyKind::Must),
        b"mustnot" => Terminal::Duty(DutyKind::MustNot),
        b"before" => Terminal::Before,
        b"each" => Terminal::Trigger(TriggerKind::Each),
        b"once" => Terminal::Trigger(TriggerKind::Once),
        b"until" => Terminal::Until,
        b"then" => Terminal::Then,
        b"else" => Terminal::Joint(BracketKind::Else),
        b"and" => Terminal::Joint(BracketKind::And),
        b"never" => Terminal::Never,
        b"if" => Terminal::If,
        b"time" => Terminal::Named(Field::Time),
        b"kind" => Terminal::Named(Field::Kind),
        b"machine" => Terminal::Named(Field::Machine),
        b"crew" => Terminal::Named(Field::Crew),
        b"run" => Terminal::Named(Field::Run),
        b"reading" => Terminal::Named(Field::Reading),
        b"A" => Terminal::Lettered(Letter::A),
        b"B" => Terminal::Lettered(Letter::B),
        b"C" => Terminal::Lettered(Letter::C),
        b"D" => Terminal::Lettered(Letter::D),
        b"E" => Terminal::Lettered(Letter::E),
        b"F" => Terminal::Lettered(Letter::F),
        b"G" => Terminal::Lettered(Letter::G),
        b"H" => Terminal::Lettered(Letter::H),
        _ => return Err(Reason::NoToken),
    })
}

// Whether there are more digits than one, the first of them 0.
fn leads_with_zero(w: &[u8]) -> bool
    ensures { result ≡ leading_zero w.now }
{
    matches!(w, [b'0', _, ..])
}

// The number that digits write.
fn number_terminal(w: &[u8]) -> Result<Terminal, Reason>
    ensures { result ≡ number_of w.now }
{
    if leads_with_zero(w) {
        return Err(Reason::BadNumber);
    }
    let mut value = 0u32;
    for digit in w {
        value = value * 10 + u32::from(digit.saturating_sub(b'0'));
        if value > LARGEST {
            return Err(Reason::BadNumber);
        }
    }
    Ok(Terminal::Numeral(value))
}

// The terminal that a token stands for.
impl TryFrom<Token<'_>> for Terminal {
    type Error = Reason;

    ghost try_from_gives = { λ token result. result ≡ meaning (stretch_of token) };

    fn try_from(token: Token<'_>) -> Result<Terminal, Reason> {
        match token {
            Token::Word(w) => word_terminal(w),
            Token::Number(w) => number_terminal(w),
            Token::Mark(s) => Ok(Terminal::from(s)),
            Token::Stray => Err(Reason::NoToken),
            Token::End => Ok(Terminal::End),
        }
    }
}
