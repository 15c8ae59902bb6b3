//! The function that a program starts with, by its word.
ghost use Rattle.std.specs.Prelude.{◌≡◌, option_map};
ghost use Rattle.std.specs.List.{list_all};
ghost use Rattle.sweet_words.specs.Roots.{is_name, is_name_byte, name_or_main};

const MOST_BYTES: usize = 64;

// What the option says, where that may be a name: `main` where it is left out.
pub fn name_or_main(word: Option<&str>) -> Option<&str>
    ensures { option_map (λ s. s.now) result ≡ name_or_main (option_map (λ s. s.now) word.entry) }
{
    match word {
        Some(name) => { if is_name(name) { Some(name) } else { None } }
        None => Some("main"),
    }
}

// Whether the text may be a name of a function.
fn is_name(text: &str) -> bool
    ensures { result ≡ is_name text.now }
{
    let bytes = text.as_bytes();
    !bytes.is_empty() && bytes.len() <= MOST_BYTES && are_of_names(bytes)
}

fn are_of_names(bytes: &[u8]) -> bool
    ensures { result ≡ list_all is_name_byte bytes.now }
{
    for byte in bytes {
        if !is_of_names(*byte) {
            return false;
        }
    }
    true
}

fn is_of_names(byte: u8) -> bool
    ensures { result ≡ is_name_byte byte }
{
    byte >= b' ' && byte <= b'~' && byte != b'"' && byte != b'\\'
}
