//! Names and keywords.

ghost use Rattle.std.specs.Prelude.{◌≡◌};
ghost use Rattle.c_grammar.specs.Symbols.{type_word, is_statement_word, is_label_word, other_word, word_symbol};

use crate::symbol::{Symbol, TypeWord};
use c_tokens::is_keyword;

fn type_word(text: &[u8]) -> Option<TypeWord>
    ensures { result ≡ type_word text.now }
{
    if text == b"int".as_slice() {
        Some(TypeWord::Int)
    } else if text == b"char".as_slice() {
        Some(TypeWord::Char)
    } else if text == b"void".as_slice() {
        Some(TypeWord::Void)
    } else if text == b"short".as_slice() {
        Some(TypeWord::Short)
    } else if text == b"signed".as_slice() {
        Some(TypeWord::Signed)
    } else if text == b"unsigned".as_slice() {
        Some(TypeWord::Unsigned)
    } else {
        None
    }
}

fn is_label_word(text: &[u8]) -> bool
    ensures { result ≡ is_label_word text.now }
{
    text == b"case".as_slice() || text == b"default".as_slice()
}

// Whether a statement begins with the word.
#[tactic(auto, unfolding(crate::specs::Symbols::is_statement_word))]
fn is_statement_word(text: &[u8]) -> bool
    ensures { result ≡ is_statement_word text.now }
{
    if text == b"if".as_slice() || text == b"do".as_slice() {
        true
    } else if text == b"for".as_slice() || text == b"while".as_slice() {
        true
    } else if text == b"break".as_slice() || text == b"switch".as_slice() {
        true
    } else {
        text == b"return".as_slice() || text == b"continue".as_slice()
    }
}

// A word that is no word of a type.
#[tactic(auto, unfolding(crate::specs::Symbols::other_word))]
fn other_word(text: &[u8]) -> Symbol
    ensures { result ≡ other_word text.now }
{
    if is_statement_word(text) {
        Symbol::Statement
    } else if is_label_word(text) {
        Symbol::Label
    } else if text == b"else".as_slice() {
        Symbol::Closing
    } else if text == b"const".as_slice() {
        Symbol::Const
    } else if text == b"static".as_slice() {
        Symbol::Static
    } else if is_keyword(text) || 28 < text.len() {
        Symbol::Unplaced
    } else {
        Symbol::Name
    }
}

/// What an identifier is.
#[tactic(auto, unfolding(crate::specs::Symbols::word_symbol))]
pub fn word_symbol(text: &[u8]) -> Symbol
    ensures { result ≡ word_symbol text.now }
{
    match type_word(text) {
        Some(word) => Symbol::Type(word),
        None => other_word(text),
    }
}
