//! Names of frames and labels.

ghost use Rattle.std.specs.Prelude.{◌≡◌, ◌++◌, codes, decimal, IfOk, OnOk};
ghost use Rattle.c_lowered.specs.Names as names;

use flow_base::Name;
use itoa::Buffer;
use std::alloc::{AllocError, Global};

// Puts a number in digits.
fn put_number(text: &mut Vec<u8>, number: u64) -> Result<(), AllocError>
    ensures { OnOk result (text.new.items ≡ text.old.items ++ decimal number) }
{
    let mut digits = Buffer::new();
    text.extend_from_slice(digits.format(number).as_bytes())?;
    Ok(())
}

// Puts what a further declaration adds to a name.
fn put_further(text: &mut Vec<u8>, before: u64) -> Result<(), AllocError>
    ensures { OnOk result (text.new.items ≡ text.old.items ++ names.further before) }
{
    if before > 0 {
        text.extend_from_slice(b"::")?;
        put_number(text, before)?;
    }
    Ok(())
}

/// The name of a parameter or a local of a function before which so many others of its name are declared there.
pub fn owned_name(
    alloc: Global,
    function: &[u8],
    name: &[u8],
    before: u64,
) -> Result<Name, AllocError>
    ensures { IfOk result (λ text. text ≡ function.now ++ (codes "::" ++ (name.now ++ names.further before))) }
{
    let mut text = Vec::new(alloc);
    text.extend_from_slice(function)?;
    text.extend_from_slice(b"::")?;
    text.extend_from_slice(name)?;
    put_further(&mut text, before)?;
    Name::new(alloc, &text)
}

/// The name of a function's label, where the mark is `L`, or of the frame of a result, where it is `$`.
pub fn numbered_name(
    alloc: Global,
    function: &[u8],
    mark: &[u8],
    number: u64,
) -> Result<Name, AllocError>
    ensures { IfOk result (λ text. text ≡ function.now ++ (codes "::" ++ (mark.now ++ decimal number))) }
{
    let mut text = Vec::new(alloc);
    text.extend_from_slice(function)?;
    text.extend_from_slice(b"::")?;
    text.extend_from_slice(mark)?;
    put_number(&mut text, number)?;
    Name::new(alloc, &text)
}
