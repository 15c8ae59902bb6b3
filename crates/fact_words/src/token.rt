/// A word of a text, which may be empty.
#[derive(Clone, Copy, Debug)]
pub struct Token<'a> {
    /// The word begins a line. Otherwise it stands after a space.
    pub line: bool,
    pub text: &'a [u8],
    /// How many bytes of the text are left where the word begins.
    pub left: usize,
}
