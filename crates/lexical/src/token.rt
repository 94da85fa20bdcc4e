// A part of a line, borrowed from the text, with the column of its first byte.
ghost use Rattle.std.specs.Prelude.{◌≡◌};
ghost use Rattle.lexical.specs.Tokens.{IsToken, token_bytes, token_column};

#[derive(Clone, Copy)]
pub enum Token<'a> {
    // what stands before the first `=`
    Key(&'a [u8], usize),
    // a field that begins with a digit, or with a minus sign and more
    Number(&'a [u8], usize),
    // any other field
    Word(&'a [u8], usize),
    // the field `-`
    Dash(usize),
}

// The token of a field, by its first byte.
pub fn token_of<'a>(field: &'a [u8], column: usize) -> Token<'a>
    ensures { IsToken field.now column result }
{
    if field == b"-".as_slice() {
        return Token::Dash(column);
    }
    match field {
        [b'0'..=b'9' | b'-', ..] => Token::Number(field, column),
        _ => Token::Word(field, column),
    }
}

impl<'a> Token<'a> {
    // Its bytes.
    pub fn bytes(self) -> &'a [u8]
        ensures { result.now ≡ token_bytes self.entry }
    {
        match self {
            Token::Key(bytes, _) | Token::Number(bytes, _) | Token::Word(bytes, _) => bytes,
            Token::Dash(_) => b"-",
        }
    }

    // The column of its first byte.
    pub fn column(self) -> usize
        ensures { result ≡ token_column self.entry }
    {
        match self {
            Token::Key(_, column)
            | Token::Number(_, column)
            | Token::Word(_, column)
            | Token::Dash(column) => column,
        }
    }
}
