//! Numbers in digits.

ghost use Rattle.std.specs.Prelude.{◌≡◌, ◌≤◌, ◌<◌, ◌+◌, ◌⊎◌, ◌↔◌, [], length, drop, IsNone, IfSome};
ghost use Rattle.flow_base.specs.Digits.{prefix_digits, number_of};

/// The number of the longest list of digits from `at`, and the place after it. Takes no memory.
pub fn digits(bytes: &[u8], at: usize, most: u128) -> Option<(u128, usize)>
    requires { at ≤ length bytes.now }

    // There is no digit, or the number is above the most that is wanted.
    ensures none { let prefix = prefix_digits (drop at bytes.now) in
        IsNone result ↔ ((prefix ≡ []) ⊎ (most < number_of prefix)) }
    ensures number { IfSome result (λ found. found.0 ≡ number_of (prefix_digits (drop at bytes.now))) }
    ensures place { IfSome result (λ found. found.1 ≡ at + length (prefix_digits (drop at bytes.now))) }
    ensures within { IfSome result (λ found. found.1 ≤ length bytes.now) }
{
    let (value, count) = number(&bytes[at..], most)?;
    if count == 0 {
        return None;
    }
    Some((value, at + count))
}

// The number of the digits that the text begins with, and how many they are. None where it is above the most.
#[tactic(auto, using(crate::proofs::Numbers::number_after_least))]
fn number(text: &[u8], most: u128) -> Option<(u128, usize)>
    ensures none { IsNone result ↔ (most < number_of (prefix_digits text.now)) }
    ensures number { IfSome result (λ found. found.0 ≡ number_of (prefix_digits text.now)) }
    ensures count { IfSome result (λ found. found.1 ≡ length (prefix_digits text.now)) }
    ensures within { IfSome result (λ found. found.1 ≤ length text.now) }
{
    let mut value: u128 = 0;
    let mut rest = text;
    while let Some((digit, others)) = rest.split_first() {
        if !digit.is_ascii_digit() {
            break;
        }
        let digit = u128::from(*digit - b'0');
        // A further digit is read only where the number stays within the most.
        if most < digit || value > (most - digit) / 10 {
            return None;
        }
        value = 10 * value + digit;
        rest = others;
    }
    Some((value, text.len() - rest.len()))
}
