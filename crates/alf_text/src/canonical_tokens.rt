//! Tokens of canonical texts, and the names and numbers that are made of them.

ghost use Rattle.std.specs.Prelude.{◌≡◌, ◌≤◌, ◌<◌, ◌^◌, ◌∷◌, [], OnOk, true, false};
ghost use Rattle.alf_text.specs.Printing.{put, all_put};
ghost use Rattle.alf_ops.specs.TwosComplement.{is_negative};
ghost use Rattle.alf_text.specs.Canonical.{opens, closes, a_word, a_number, a_name, ref_marks, label_marks};
ghost use Rattle.alf_text.specs.Canonical.{address_marks};
ghost use Rattle.alf_text.specs.Canonical.{signed_marks, dec_signed_marks, dec_unsigned_marks, num_marks};

use alf_ops::{distance, is_negative};
use alf_program::Num;
use flow_base::Name;
use itoa::Buffer;
use std::alloc::AllocError;

#[tactic(auto, unfolding(crate::specs::Printing::put))]
pub fn put_word(out: &mut Vec<u8>, word: &[u8]) -> Result<(), AllocError>
    ensures { OnOk result (out.new.items ≡ all_put out.old.items (a_word word.now ∷ [])) }
{
    out.push(b' ')?;
    out.extend_from_slice(word)?;
    Ok(())
}

#[tactic(auto, unfolding(crate::specs::Printing::put))]
pub fn put_name(out: &mut Vec<u8>, name: &Name) -> Result<(), AllocError>
    ensures { OnOk result (out.new.items ≡ all_put out.old.items (a_name name.now ∷ [])) }
{
    out.extend_from_slice(b" \"")?;
    out.extend_from_slice(name.bytes())?;
    out.push(b'"')?;
    Ok(())
}

#[tactic(auto, unfolding(crate::specs::Printing::put))]
pub fn put_number(out: &mut Vec<u8>, n: u64) -> Result<(), AllocError>
    ensures { OnOk result (out.new.items ≡ all_put out.old.items (a_number n ∷ [])) }
{
    let mut digits = Buffer::new();
    out.push(b' ')?;
    out.extend_from_slice(digits.format(n).as_bytes())?;
    Ok(())
}

#[tactic(auto, unfolding(crate::specs::Printing::put))]
pub fn open(out: &mut Vec<u8>, blank: u8, word: &[u8]) -> Result<(), AllocError>
    ensures { OnOk result (out.new.items ≡ all_put out.old.items (opens blank ∷ a_word word.now ∷ [])) }
{
    out.push(blank)?;
    out.push(b'{')?;
    put_word(out, word)
}

#[tactic(auto, unfolding(crate::specs::Printing::put))]
pub fn close(out: &mut Vec<u8>) -> Result<(), AllocError>
    ensures { OnOk result (out.new.items ≡ all_put out.old.items (closes ∷ [])) }
{
    out.extend_from_slice(b" }")?;
    Ok(())
}

// ---- names and numbers

pub fn put_ref(out: &mut Vec<u8>, word: &[u8], name: &Name) -> Result<(), AllocError>
    ensures { OnOk result (out.new.items ≡ all_put out.old.items (ref_marks word.now name.now)) }
{
    open(out, b' ', word)?;
    put_number(out, 32)?;
    put_name(out, name)?;
    close(out)?;
    Ok(())
}

/// A value fits in its size, from 1 to 64 bits. Any other is printed as it stands.
#[tactic(auto, using(crate::proofs::TextPrinting::printing))]
fn is_word(size: u32, bits: u64) -> bool
    ensures word { result ≡ true → (1 ≤ size) × (size ≤ 64) × (bits < 2 ^ size) }
    ensures other { result ≡ false → is_negative size bits ≡ false }
{
    (1..=64).contains(&size) && u128::from(bits) < 1_u128 << size
}

#[tactic(auto, unfolding(crate::specs::Canonical::signed_marks))]
fn put_minus(out: &mut Vec<u8>, size: u32, bits: u64) -> Result<(), AllocError>
    requires word { (1 ≤ size) × (size ≤ 64) × (bits < 2 ^ size) }
    requires below { is_negative size bits ≡ true }
    ensures { OnOk result (out.new.items ≡ all_put out.old.items (signed_marks size bits)) }
{
    open(out, b' ', b"minus")?;
    put_number(out, distance(size, bits))?;
    close(out)?;
    Ok(())
}

#[tactic(auto, unfolding(crate::specs::Canonical::signed_marks))]
fn put_signed(out: &mut Vec<u8>, size: u32, bits: u64) -> Result<(), AllocError>
    ensures { OnOk result (out.new.items ≡ all_put out.old.items (signed_marks size bits)) }
{
    if is_word(size, bits) && is_negative(size, bits) {
        put_minus(out, size, bits)
    } else {
        put_number(out, bits)
    }
}

fn put_dec_signed(out: &mut Vec<u8>, size: u32, bits: u64) -> Result<(), AllocError>
    ensures { OnOk result (out.new.items ≡ all_put out.old.items (dec_signed_marks size bits)) }
{
    open(out, b' ', b"dec_signed")?;
    put_number(out, size as u64)?;
    put_signed(out, size, bits)?;
    close(out)?;
    Ok(())
}

pub fn put_dec_unsigned(out: &mut Vec<u8>, size: u32, bits: u64) -> Result<(), AllocError>
    ensures { OnOk result (out.new.items ≡ all_put out.old.items (dec_unsigned_marks size bits)) }
{
    open(out, b' ', b"dec_unsigned")?;
    put_number(out, size as u64)?;
    put_number(out, bits)?;
    close(out)?;
    Ok(())
}

#[tactic(auto, unfolding(crate::specs::Canonical::num_marks))]
pub fn put_num(out: &mut Vec<u8>, num: &Num) -> Result<(), AllocError>
    ensures { OnOk result (out.new.items ≡ all_put out.old.items (num_marks num.now)) }
{
    if num.signed {
        put_dec_signed(out, num.size, num.bits)
    } else {
        put_dec_unsigned(out, num.size, num.bits)
    }
}

pub fn put_label(out: &mut Vec<u8>, blank: u8, name: &Name) -> Result<(), AllocError>
    ensures { OnOk result (out.new.items ≡ all_put out.old.items (label_marks blank name.now)) }
{
    open(out, blank, b"label")?;
    put_number(out, 32)?;
    put_ref(out, b"lref", name)?;
    put_dec_unsigned(out, 32, 0)?;
    close(out)?;
    Ok(())
}

pub fn put_address(out: &mut Vec<u8>, frame: &Name, offset: u32) -> Result<(), AllocError>
    ensures { OnOk result (out.new.items ≡ all_put out.old.items (address_marks (frame.now, offset))) }
{
    open(out, b' ', b"addr")?;
    put_number(out, 32)?;
    put_ref(out, b"fref", frame)?;
    put_dec_unsigned(out, 32, offset as u64)?;
    close(out)?;
    Ok(())
}
