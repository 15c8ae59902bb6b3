//! The tokens of ALF: braces, words, numbers and names in quotes.
//!
//! Cutting a text is total. White space is a kind of piece, and so is the rest
//! of the text where no piece begins, which no grammar takes. A `Cursor` cuts tokens as they are asked for
//! and takes no memory, so that a text of a million braces costs nothing. Each token tells how many
//! bytes of the text are left where it begins. The rules stand in words in `docs/formats/alf.md`.
#![tactic(auto)]

// What is cut.
mod lexer;
mod token;

// Cutting on demand.
mod cursor;

// What the definitions promise.
mod laws;

// Rows, worked out by hand.
mod worked;

pub use cursor::Cursor;
pub use laws::{printed_texts_are_cut, texts_are_their_pieces};
pub use token::{Kind, Token};
pub use worked::{pieces_end_where_they_must, texts_have_their_tokens};
