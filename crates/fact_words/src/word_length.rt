ghost use Rattle.std.specs.Prelude.{◌≡◌, ◌≤◌, false, length};
ghost use Rattle.fact_words.specs.Tokens.{ends_word, is_quoted_after, word_len};

// Whether a word ends right before this byte.
fn ends_word(quoted: bool, byte: u8) -> bool
    ensures { result ≡ ends_word quoted byte }
{
    byte == b'\n' || (byte == b' ' && !quoted)
}

// Whether quotes are open after this byte.
fn is_quoted_after(quoted: bool, byte: u8) -> bool
    ensures { result ≡ is_quoted_after quoted byte }
{
    if byte == b'"' { !quoted } else { quoted }
}

/// The length of the word that the bytes begin with.
pub fn word_len(bytes: &[u8]) -> usize
    ensures len { result ≡ word_len false bytes.now }
    ensures within { result ≤ length bytes.now }
{
    let mut quoted = false;
    let mut rest = bytes;
    while let Some((byte, others)) = rest.split_first() {
        if ends_word(quoted, *byte) {
            break;
        }
        quoted = is_quoted_after(quoted, *byte);
        rest = others;
    }
    bytes.len() - rest.len()
}
