//! Tokens of C, and what constants are worth.
//!
//! Tokens are the preprocessing tokens of C99, each the longest that begins at its place. Cutting a text is total:
//! white space is a kind of piece, a byte that is in no other token is a token of its own, and so is a comment
//! that is not closed, which no grammar takes. A `Cursor` cuts tokens as they are asked for and takes no memory.
//! Each token tells how many bytes of the text are left where it begins.
//!
//! `worth_of` tells what a token is worth, if it is a constant of the profile: a decimal, octal or hexadecimal
//! number of at most 32 bits, with `u` or `U` at the end or without, or a character, which is a printable byte of
//! ASCII or one of five escapes. No grammar is known here.
#![tactic(auto)]

// What is cut.
mod token;

// Where single pieces end.
mod bytes;
mod comments;
mod literals;
mod numbers;
mod punctuators;

// The longest piece, and cutting on demand.
mod cursor;
mod lexer;

// Which tokens are keywords.
mod keywords;

// What the definitions promise of tokens.
mod laws;

// What constants are worth: numbers and characters.
mod characters;
mod constant_numbers;
mod worked;
mod worth;

pub use cursor::Cursor;
pub use keywords::is_keyword;
pub use laws::{
    printed_texts_are_cut, texts_are_their_pieces, tokens_are_known_by_their_texts,
    tokens_stand_in_their_texts,
};
pub use token::{Kind, Token};
pub use worked::{
    characters_have_their_worth, comments_and_literals_end, constants_have_their_worth,
    keywords_are_those_of_c, texts_are_of_their_kinds, tokens_are_the_longest,
};
pub use worth::{Worth, worth_of};
