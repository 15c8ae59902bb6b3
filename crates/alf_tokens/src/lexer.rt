ghost use Rattle.std.specs.Prelude.{◌≡◌, ◌≤◌, IfSome, IsTrue, length};
ghost use Rattle.std.specs.List.{prefix_len};
ghost use Rattle.std.specs.Char.{is_ascii_digit};
ghost use Rattle.alf_tokens.specs.Bytes.{is_blank, is_word_byte, is_name_byte, begins_with, to_close, closes};
ghost use Rattle.alf_tokens.specs.Tokens.{piece, name_piece, comment_piece, number_piece};

use crate::token::Kind;

const MOST_DIGITS: usize = 20;

const MOST_NAME: usize = 64;

fn is_blank(byte: u8) -> bool
    ensures { result ≡ is_blank byte }
{
    byte == b' ' || byte == b'\t' || byte == b'\r' || byte == b'\n'
}

fn is_word_byte(byte: u8) -> bool
    ensures { result ≡ is_word_byte byte }
{
    byte.is_ascii_alphabetic() || byte.is_ascii_digit() || byte == b'_'
}

fn is_name_byte(byte: u8) -> bool
    ensures { result ≡ is_name_byte byte }
{
    b' ' <= byte && byte <= b'~' && byte != b'"' && byte != b'\\'
}

fn word_len(bytes: &[u8]) -> usize
    ensures { result ≡ prefix_len is_word_byte bytes.now }
{
    bytes.iter().take_while(|b| is_word_byte(**b)).count()
}

fn digits_len(bytes: &[u8]) -> usize
    ensures { result ≡ prefix_len is_ascii_digit bytes.now }
{
    bytes.iter().take_while(|b| b.is_ascii_digit()).count()
}

fn name_len(bytes: &[u8]) -> usize
    ensures len { result ≡ prefix_len is_name_byte bytes.now }
    ensures within { result ≤ length bytes.now }
{
    bytes.iter().take_while(|b| is_name_byte(**b)).count()
}

fn begins_with(bytes: &[u8], byte: u8) -> bool
    ensures { result ≡ begins_with byte bytes.now }
{
    match bytes {
        [first, ..] => *first == byte,
        [] => false,
    }
}

fn closes(bytes: &[u8]) -> bool
    ensures value { result ≡ closes bytes.now }
    ensures within { IsTrue result → 2 ≤ length bytes.now }
{
    match bytes {
        [first, second, ..] => *first == b'*' && *second == b'/',
        _ => false,
    }
}

// How many bytes there are up to the end of the first `*/`.
fn to_close(bytes: &[u8]) -> Option<usize>
    ensures place { result ≡ to_close bytes.now }
    ensures within { IfSome result (λ len. len ≤ length bytes.now) }
{
    for i in 0..bytes.len() {
        if closes(&bytes[i..]) {
            return Some(i + 2);
        }
    }
    None
}

/// The kind and the length of the piece that the bytes begin with. `numbered` says that a number
/// ends right before them.
#[tactic(auto, unfolding(crate::specs::Tokens::piece))]
pub fn piece(numbered: bool, bytes: &[u8]) -> (Kind, usize)
    ensures { result ≡ piece numbered bytes.now }
{
    let [first, rest @ ..] = bytes else {
        return (Kind::Broken, 0);
    };
    let byte = *first;
    if is_blank(byte) {
        (Kind::White, 1)
    } else if byte == b'{' {
        (Kind::Open, 1)
    } else if byte == b'}' {
        (Kind::Close, 1)
    } else if byte == b'"' {
        name_piece(rest, bytes.len())
    } else if byte == b'/' {
        comment_piece(rest, bytes.len())
    } else if byte.is_ascii_digit() {
        number_piece(digits_len(bytes))
    } else if byte.is_ascii_alphabetic() && !numbered {
        (Kind::Word, word_len(bytes))
    } else {
        (Kind::Broken, bytes.len())
    }
}

// A name after its first quote, where so many bytes are left in all.
fn name_piece(rest: &[u8], all: usize) -> (Kind, usize)
    ensures { result ≡ name_piece rest.now all }
{
    let len = name_len(rest);
    if 0 < len && len <= MOST_NAME && begins_with(&rest[len..], b'"') {
        (Kind::Quoted, len + 2)
    } else {
        (Kind::Broken, all)
    }
}

// A comment after its slash, where so many bytes are left in all.
fn comment_piece(rest: &[u8], all: usize) -> (Kind, usize)
    ensures { result ≡ comment_piece rest.now all }
{
    let [star, body @ ..] = rest else {
        return (Kind::Broken, all);
    };
    if *star != b'*' {
        return (Kind::Broken, all);
    }
    match to_close(body) {
        Some(len) => (Kind::White, len + 2),
        None => (Kind::Broken, all),
    }
}

fn number_piece(len: usize) -> (Kind, usize)
    ensures { result ≡ number_piece len }
{
    if len <= MOST_DIGITS {
        (Kind::Number, len)
    } else {
        (Kind::Long, len)
    }
}
