//! Words of a text, each with the byte before it.

ghost use Rattle.std.specs.Prelude.{◌≡◌, ◌∷◌, [], OnOk};
ghost use Rattle.fact_words.specs.Printing.{all_put};
ghost use Rattle.fact_words.specs.Canonical.{begins, a_word, a_number, a_whole};

use itoa::Buffer;
use std::alloc::AllocError;

/// A word that begins a line.
#[tactic(auto, unfolding(crate::specs::Printing::put))]
pub fn put_line(out: &mut Vec<u8>, word: &[u8]) -> Result<(), AllocError>
    ensures { OnOk result (out.new.items ≡ all_put out.old.items (begins word.now ∷ [])) }
{
    out.push(b'\n')?;
    out.extend_from_slice(word)?;
    Ok(())
}

#[tactic(auto, unfolding(crate::specs::Printing::put))]
pub fn put_word(out: &mut Vec<u8>, word: &[u8]) -> Result<(), AllocError>
    ensures { OnOk result (out.new.items ≡ all_put out.old.items (a_word word.now ∷ [])) }
{
    out.push(b' ')?;
    out.extend_from_slice(word)?;
    Ok(())
}

pub fn put_number(out: &mut Vec<u8>, n: u64) -> Result<(), AllocError>
    ensures { OnOk result (out.new.items ≡ all_put out.old.items (a_number n ∷ [])) }
{
    let mut digits = Buffer::new();
    put_word(out, digits.format(n).as_bytes())
}

pub fn put_whole(out: &mut Vec<u8>, n: i128) -> Result<(), AllocError>
    ensures { OnOk result (out.new.items ≡ all_put out.old.items (a_whole n ∷ [])) }
{
    let mut digits = Buffer::new();
    put_word(out, digits.format(n).as_bytes())
}
