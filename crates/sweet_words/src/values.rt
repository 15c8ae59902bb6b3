//! The numbers of options.
ghost use Rattle.std.specs.Prelude.{◌≡◌, option_map, IfSome};
ghost use Rattle.std.specs.Char.{is_ascii_digit};
ghost use Rattle.std.specs.List.{list_all};
ghost use Rattle.sweet_words.specs.Numbers.{IsFromTo, is_number, number_given, number_in, number_or};

const MOST_DIGITS: usize = 20;

// The number of the option, or `other` where it is left out.
pub fn number(text: Option<&str>, other: u32, least: u32, most: u32) -> Option<u32>
    requires { IsFromTo least most other }
    ensures number { result ≡ number_or other least most (option_map (λ s. s.now) text.entry) }
    ensures within { IfSome result (IsFromTo least most) }
{
    match text {
        Some(text) => number_within(text, least, most),
        None => Some(other),
    }
}

// The number of an option that must not be left out.
pub fn number_given(text: Option<&str>, least: u32, most: u32) -> Option<u32>
    ensures number { result ≡ number_given least most (option_map (λ s. s.now) text.entry) }
    ensures within { IfSome result (IsFromTo least most) }
{
    match text {
        Some(text) => number_within(text, least, most),
        None => None,
    }
}

fn number_within(text: &str, least: u32, most: u32) -> Option<u32>
    ensures number { result ≡ number_in least most text.now }
    ensures within { IfSome result (IsFromTo least most) }
{
    if !is_numeral(text) {
        return None;
    }
    let number = text.parse::<u32>().ok()?;
    if number < least || number > most {
        return None;
    }
    Some(number)
}

// Whether the text is one to twenty digits, and nothing else.
fn is_numeral(text: &str) -> bool
    ensures { result ≡ is_number text.now }
{
    let bytes = text.as_bytes();
    !bytes.is_empty() && bytes.len() <= MOST_DIGITS && are_digits(bytes)
}

fn are_digits(bytes: &[u8]) -> bool
    ensures { result ≡ list_all is_ascii_digit bytes.now }
{
    for byte in bytes {
        if !byte.is_ascii_digit() {
            return false;
        }
    }
    true
}
