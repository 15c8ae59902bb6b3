/// What a piece of a text is.
#[derive(Clone, Copy, Debug, PartialEq, Eq)]
pub enum Kind {
    /// A blank or a comment, which is no token.
    White,
    /// A name or a keyword.
    Identifier,
    /// A preprocessing number, as `12`, `0x1F` and `1.5e+3`.
    Number,
    /// A character constant with its quotes.
    Character,
    /// A string literal with its quotes.
    StringLiteral,
    /// An operator, a bracket or another mark of C.
    Punctuator,
    /// One byte that is in none of these.
    Other,
    /// A quote of which no literal is closed, up to the end of its line.
    OpenLiteral,
    /// A comment that is not closed, up to the end of the text.
    OpenComment,
}

/// A token of a text, as it stands there.
#[derive(Clone, Copy, Debug)]
pub struct Token<'a> {
    pub kind: Kind,
    pub text: &'a [u8],
    /// How many bytes of the text are left where the token begins.
    pub left: usize,
}
