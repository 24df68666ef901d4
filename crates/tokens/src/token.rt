// A token is a stretch of the text; its word and number cases borrow the text.
ghost use Rattle.std.specs.Prelude.{◌≡◌};
ghost use Rattle.tokens.specs.Tokens.{token_len};

#[derive(Clone, Copy)]
pub enum Symbol {
    AtMost,
    AtLeast,
    Equal,
    Plus,
    Times,
    Comma,
    Semicolon,
    Open,
    Close,
    OpenSquare,
    CloseSquare,
}

#[derive(Clone, Copy)]
pub enum Token<'a> {
    Word(&'a [u8]),
    Number(&'a [u8]),
    Mark(Symbol),
    // a byte that no token has
    Stray,
    // the end of the text (a token like another, as the grammar has it: readers ask for it by name)
    End,
}

impl Token<'_> {
    // How many bytes the token has.
    pub(crate) fn len(self) -> usize
        ensures { result ≡ token_len self.entry }
    {
        match self {
            Token::Word(bytes) | Token::Number(bytes) => bytes.len(),
            Token::Mark(Symbol::AtMost | Symbol::AtLeast) => 2,
            Token::Mark(_) | Token::Stray => 1,
            Token::End => 0,
        }
    }
}

// A token with its place, the count of bytes before it.
#[derive(Clone, Copy)]
pub struct Found<'a> {
    pub token: Token<'a>,
    pub place: usize,
}
