ghost use Rattle.std.specs.Prelude.{◌≡◌, ◌++◌, map, drop, true, IfOk, OnOk};
ghost use Rattle.std.specs.List.{flat_map, list_all};
ghost use Rattle.c_tokens.specs.Tokens.{tokens_of};
ghost use Rattle.c_tokens.specs.Printed.{can_print, spaced, printed_text};
ghost use Rattle.c_unit.specs.Units.{unit_of};
ghost use Rattle.c_unit.specs.Texts.{span_text, texts_of};

use crate::tokens::{Span, range};
use crate::unit::CUnit;
use c_tokens::printed_texts_are_cut;
use std::alloc::{AllocError, Global};

/// The canonical text of a unit. Takes memory for the text.
pub fn print(alloc: Global, unit: &CUnit) -> Result<Vec<u8>, AllocError>
    ensures text { IfOk result (λ bytes. bytes.items ≡ printed_text (texts_of (unit_of unit.now))) }
    // The texts of the tokens are read back.
    ensures again { list_all can_print (texts_of (unit_of unit.now)) ≡ true
        → IfOk result (λ bytes. map (λ token. token.text) (tokens_of bytes.items) ≡ texts_of (unit_of unit.now)) }
{
    printed_texts_are_cut();
    let mut out = tokens(alloc, unit.text.as_slice(), unit.tokens.as_slice())?;
    out.push(b'\n')?;
    Ok(out)
}

// The ranges, with a space between two of them.
fn tokens(alloc: Global, text: &[u8], spans: &[Span]) -> Result<Vec<u8>, AllocError>
    ensures { IfOk result (λ out. out.items ≡ drop 1 (flat_map (λ span. spaced (span_text text.now span)) spans.now)) }
{
    let mut out = Vec::new(alloc);
    let Some((first, others)) = spans.split_first() else {
        return Ok(out);
    };
    out.extend_from_slice(range(text, *first))?;
    spaced_tokens(&mut out, text, others)?;
    Ok(out)
}

// Each of the ranges after a space.
fn spaced_tokens(out: &mut Vec<u8>, text: &[u8], spans: &[Span]) -> Result<(), AllocError>
    ensures { OnOk result
        (out.new.items ≡ out.old.items ++ flat_map (λ span. spaced (span_text text.now span)) spans.now) }
{
    let mut rest = spans;
    while let Some((span, others)) = rest.split_first() {
        spaced_token(out, range(text, *span))?;
        rest = others;
    }
    Ok(())
}

fn spaced_token(out: &mut Vec<u8>, token: &[u8]) -> Result<(), AllocError>
    ensures { OnOk result (out.new.items ≡ out.old.items ++ spaced token.now) }
{
    out.push(b' ')?;
    out.extend_from_slice(token)?;
    Ok(())
}
