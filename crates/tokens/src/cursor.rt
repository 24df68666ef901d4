// Cuts a text into tokens, one at a time.
ghost use Rattle.std.specs.List.{prefix_len};
ghost use Rattle.std.specs.Prelude.{◌≡◌, ℕ, Bool, ◌+◌, ◌-◌, ◌<◌, ◌≤◌, true, false, [], ◌∷◌, length, drop, slice_index};
ghost use Rattle.tokens.specs.Text.{is_blank, is_letter, is_digit, next_is, placed, stretches, is_end};
ghost use Rattle.tokens.specs.Tokens.{stretch_of, token_len, tokens_at, SymbolAt, ahead, Next, AtEnd};

use crate::source::Cursor;
use crate::token::{Found, Symbol, Token};

fn is_blank(b: u8) -> bool
    ensures { result ≡ is_blank b }
{
    matches!(b, b' ' | b'\n')
}

fn is_letter(b: u8) -> bool
    ensures { result ≡ is_letter b }
{
    b.is_ascii_alphabetic()
}

fn is_digit(b: u8) -> bool
    ensures { result ≡ is_digit b }
{
    b.is_ascii_digit()
}

// How many bytes at the front are of a kind.
fn run_len<K: Fn(u8) -> bool>(bytes: &[u8], kind: K) -> usize
    ghost test: { ℕ → Bool }
    requires callable { K.IsAlwaysCallable kind }
    requires tells { (b : ℕ) (t : Bool) → b < 256 → K.post kind b t → t ≡ test b }
    ensures run { result ≡ prefix_len test bytes.now }
    ensures within { result ≤ length bytes.now }
{
    // (As `take_while` and `count` the search gives up: the chain's law does not go through any `kind`.)
    for (n, b) in bytes.iter().enumerate() {
        if !kind(*b) {
            return n;
        }
    }
    bytes.len()
}

// The first place from `from` on that has no blank.
fn skip_blanks(text: &[u8], from: usize) -> usize
    requires { from ≤ length text.now }
    ensures low { from ≤ result }
    ensures within { result ≤ length text.now }
    ensures same { tokens_at text.now from ≡ tokens_at text.now result }
    ensures stops { result < length text.now → is_blank (slice_index text.now result) ≡ false }
{
    from + run_len(&text[from..], is_blank)
}

// The symbol at the front. (Told by its first byte and whether `=` follows: by patterns of two bytes the compiler makes two
// tables of jumps, and a token takes longer.)
#[tactic(auto, unfolding(crate::specs::Text::symbol_of, crate::specs::Text::same))]
fn symbol_at(rest: &[u8]) -> Option<Symbol>
    ensures { SymbolAt (slice_index rest.now 0) (next_is 61 (drop 1 rest.now)) result }
{
    let (first, behind) = rest.split_first()?;
    let equals = matches!(behind, [b'=', ..]);
    match *first {
        b'<' => if equals { Some(Symbol::AtMost) } else { None },
        b'>' => if equals { Some(Symbol::AtLeast) } else { None },
        b'=' => Some(Symbol::Equal),
        b'+' => Some(Symbol::Plus),
        b'*' => Some(Symbol::Times),
        b',' => Some(Symbol::Comma),
        b';' => Some(Symbol::Semicolon),
        b'(' => Some(Symbol::Open),
        b')' => Some(Symbol::Close),
        b'[' => Some(Symbol::OpenSquare),
        b']' => Some(Symbol::CloseSquare),
        _ => None,
    }
}

// The token that begins at `at`, the longest stretch there.
fn token_at<'a>(text: &'a [u8], at: usize) -> Token<'a>
    requires within { at < length text.now }
    requires dark { is_blank (slice_index text.now at) ≡ false }
    ensures within { at + token_len result ≤ length text.now }
    ensures some { 0 < token_len result }
    ensures step { tokens_at text.now at ≡ placed at (stretch_of result) ∷ tokens_at text.now (at + token_len result) }
{
    let rest = &text[at..];
    if is_letter(rest[0]) {
        return Token::Word(&rest[..1 + run_len(&rest[1..], is_letter)]);
    }
    if is_digit(rest[0]) {
        return Token::Number(&rest[..1 + run_len(&rest[1..], is_digit)]);
    }
    // (No `map_or`: the checker refuses a variant as a function where its enum may borrow the text.)
    match symbol_at(rest) {
        Some(symbol) => Token::Mark(symbol),
        None => Token::Stray,
    }
}

// At the first token of a text.
pub fn start<'a>(text: &'a [u8]) -> Cursor<'a>
    ensures { ahead result ≡ stretches text.now }
{
    Cursor { text, pos: 0 }
}

// Whether no token is left. What lies ahead stays.
pub fn at_end(cur: &mut Cursor<'_>) -> bool
    ensures { AtEnd (ahead cur.old) result (ahead cur.new) }
{
    let text = cur.text;
    let place = skip_blanks(text, cur.pos);
    cur.pos = place;
    cur.pos >= text.len()
}

// The next token, which is then passed; the end of the text stays ahead. (Part of its caller when compiled: handed over
// through memory, a token takes longer.)
#[inline(always)]
pub fn next<'a>(cur: &mut Cursor<'a>) -> Found<'a>
    ensures { Next (ahead cur.old) result (ahead cur.new) }
{
    let text = cur.text;
    let place = skip_blanks(text, cur.pos);
    if place >= text.len() {
        cur.pos = place;
        return Found {
            token: Token::End,
            place,
        };
    }
    let token = token_at(text, place);
    cur.pos = place + token.len();
    Found { token, place }
}
