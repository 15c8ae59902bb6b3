use crate::external::External;
use crate::tokens::Span;

/// What is read of a C text: its tokens, and the trees over them.
#[derive(Drop)]
pub struct CUnit {
    /// The text, of which the tokens are ranges.
    pub text: Vec<u8>,
    pub tokens: Vec<Span>,
    pub externals: Vec<External>,
}
