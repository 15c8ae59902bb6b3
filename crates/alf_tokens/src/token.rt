/// What a piece of a text is.
#[derive(Clone, Copy, Debug, PartialEq, Eq)]
pub enum Kind {
    /// A blank or a comment, which is no token.
    White,
    Open,
    Close,
    Word,
    Number,
    /// A number of more than 20 digits.
    Long,
    /// A name in quotes.
    Quoted,
    /// The rest of the text, where no piece begins.
    Broken,
}

/// A token of a text. The bytes of a name are those between its quotes.
#[derive(Clone, Copy, Debug)]
pub struct Token<'a> {
    pub kind: Kind,
    pub text: &'a [u8],
    /// How many bytes of the text are left where the token begins.
    pub left: usize,
}
