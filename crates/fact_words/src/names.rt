//! Names of nodes.

ghost use Rattle.std.specs.Prelude.{◌≡◌, ◌≤◌, ◌<◌, ◌==◌, not, true, IfSome, length, if◌then◌else◌};
ghost use Rattle.std.specs.List.{prefix_len, list_all};
ghost use Rattle.fact_words.specs.Names.{is_name_byte, is_name, is_block, is_call, is_end, fits_parts, parts_of};
ghost use Rattle.fact_words.specs.Names.{further, parts_after, is_node_name};

use crate::numbers::{has_zeros, is_numeral};
use flow_base::digits;

const MOST_NAME: usize = 64;

const MOST_BLOCK: u128 = 0xffff_ffff;

fn is_name_byte(byte: u8) -> bool
    ensures { result ≡ is_name_byte byte }
{
    b' ' <= byte && byte <= b'~' && byte != b'"' && byte != b'\\'
}

fn all_name_bytes(part: &[u8]) -> bool
    ensures { result ≡ list_all is_name_byte part.now }
{
    let mut rest = part;
    while let Some((byte, others)) = rest.split_first() {
        if !is_name_byte(*byte) {
            return false;
        }
        rest = others;
    }
    true
}

fn is_name(part: &[u8]) -> bool
    ensures { result ≡ is_name part.now }
{
    0 < part.len() && part.len() <= MOST_NAME && all_name_bytes(part)
}

// Whether these digits are the number of a block.
#[tactic(auto, using(crate::proofs::DigitLemmas::all_digits))]
fn is_block(part: &[u8]) -> bool
    ensures { result ≡ is_block part.now }
{
    if !is_numeral(part) || has_zeros(part) {
        return false;
    }
    match digits(part, 0, MOST_BLOCK) {
        Some(_) => true,
        None => false,
    }
}

fn is_call(part: &[u8]) -> bool
    ensures { result ≡ is_call part.now }
{
    match part {
        [] => false,
        [first, others @ ..] => *first == b'.' && is_block(others),
    }
}

fn is_end(part: &[u8]) -> bool
    ensures { result ≡ is_end part.now }
{
    match part {
        [] => false,
        [first, others @ ..] => *first == b':'
            && (others == b"entry".as_slice() || is_block(others)),
    }
}

// How many bytes stand before the first quote.
fn part_len(text: &[u8]) -> usize
    ensures len { result ≡ prefix_len (λ byte. not (byte == 34)) text.now }
    ensures within { result ≤ length text.now }
{
    text.iter().take_while(|byte| **byte != b'"').count()
}

// The bytes after the quote that ends a part, if there is one.
fn after_quote(after: &[u8]) -> Option<&[u8]>
    ensures parts { parts_after result ≡ further after.now }
    ensures shorter { IfSome result (λ others. length others.now < length after.now) }
{
    match after {
        [] => None,
        [_, others @ ..] => Some(others),
    }
}

// Whether what follows the first quote goes on as a node's name does.
fn fits_after_quote(text: &[u8]) -> bool
    ensures { result ≡ fits_parts true (parts_of text.now) }
{
    let mut quoted = true;
    let mut rest = text;
    loop {
        let (part, after) = rest.split_at(part_len(rest));
        let Some(others) = after_quote(after) else {
            return !quoted && is_end(part);
        };
        if !fits_part(quoted, part) {
            return false;
        }
        quoted = !quoted;
        rest = others;
    }
}

// Whether the part may stand before further parts.
fn fits_part(quoted: bool, part: &[u8]) -> bool
    ensures { result ≡ (if quoted then is_name part.now else is_call part.now) }
{
    if quoted { is_name(part) } else { is_call(part) }
}

/// Whether the word is the name of a node.
#[tactic(auto, unfolding(crate::specs::Names::is_node_name), using(crate::proofs::NameParts::other_first))]
pub fn is_node_name(text: &[u8]) -> bool
    ensures { result ≡ is_node_name text.now }
{
    match text {
        [b'"', others @ ..] => fits_after_quote(others),
        _ => false,
    }
}
