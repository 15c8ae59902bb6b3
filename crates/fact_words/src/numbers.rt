//! Numbers in digits.

ghost use Rattle.std.specs.Prelude.{◌≡◌, ◌≤◌, ◌<◌, ◌^◌, ◌-◌, IfOk};
ghost use Rattle.std.specs.List.{list_all};
ghost use Rattle.std.specs.Char.{is_ascii_digit};
ghost use Rattle.fact_words.specs.Numbers.{is_numeral, has_zeros, number_within, negative, whole_within, is_positive};
ghost use Rattle.fact_words.specs.Answers.{Answers};

use crate::fault::Departure;
use flow_base::digits;

fn all_digits(text: &[u8]) -> bool
    ensures { result ≡ list_all is_ascii_digit text.now }
{
    let mut rest = text;
    while let Some((byte, others)) = rest.split_first() {
        if !byte.is_ascii_digit() {
            return false;
        }
        rest = others;
    }
    true
}

/// Whether these are digits, and nothing else.
pub fn is_numeral(text: &[u8]) -> bool
    ensures { result ≡ is_numeral text.now }
{
    0 < text.len() && all_digits(text)
}

/// Whether a zero stands before other digits.
pub fn has_zeros(text: &[u8]) -> bool
    ensures { result ≡ has_zeros text.now }
{
    match text {
        [] => false,
        [first, others @ ..] => *first == b'0' && !others.is_empty(),
    }
}

/// The number of a word of at most so much, where so many bytes are left.
#[tactic(auto, unfolding(crate::specs::Numbers::number_within), using(crate::proofs::DigitLemmas::all_digits))]
pub fn number_within(text: &[u8], most: u128, left: usize) -> Result<u128, Departure>
    ensures exact { Answers result (number_within most text.now left) }
    ensures within { IfOk result (λ n. n ≤ most) }
{
    if !is_numeral(text) {
        return Err(Departure::Syntax(left));
    }
    match digits(text, 0, most) {
        None => Err(Departure::Number(left)),
        Some((number, _)) => {
            if has_zeros(text) {
                Err(Departure::Syntax(left))
            } else {
                Ok(number)
            }
        }
    }
}

const MOST_WHOLE: u128 = (1 << 127) - 1;

// The number below 0 by so much.
fn negative(distance: u128, left: usize) -> Result<i128, Departure>
    requires { distance ≤ 2 ^ 127 }
    ensures { Answers result (negative left distance) }
{
    if distance == 0 {
        return Err(Departure::Syntax(left));
    }
    Ok(-1 - (distance - 1) as i128)
}

/// The whole number of a word, where so many bytes are left.
#[tactic(auto, unfolding(crate::specs::Numbers::whole_within))]
pub fn whole_within(text: &[u8], left: usize) -> Result<i128, Departure>
    ensures { Answers result (whole_within text.now left) }
{
    match text {
        [b'-', digits @ ..] => {
            let distance = number_within(digits, MOST_WHOLE + 1, left)?;
            negative(distance, left)
        }
        _ => {
            let number = number_within(text, MOST_WHOLE, left)?;
            Ok(number as i128)
        }
    }
}

/// Whether the number is above zero.
pub fn is_positive(number: i128) -> bool
    ensures { result ≡ is_positive number }
{
    0 < number
}
