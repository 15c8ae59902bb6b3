//! Every choice of one part for each operand.

ghost use Rattle.std.specs.Prelude.{◌≡◌, [], ◌∷◌, ◌++◌, IfOk, OnOk, map};
ghost use Rattle.pointer_rules.specs.AbstractValues.{IsAbstract, words_first as words_first_of, alternatives};
ghost use Rattle.pointer_rules.specs.Choices.{each_after as each_after_of, each_first as each_first_of};
ghost use Rattle.pointer_rules.specs.Choices.{choices as choices_of};
ghost use Rattle.pointer_domain.specs.Parts.{alternative_of, parts_of, AreAbstract};

use crate::part::Part;
use crate::value::AVal;
use interval_congruence::Strided;
use std::alloc::{AllocError, Global};

/// The words, if there are some.
fn words_first(alloc: Global, words: Option<Strided>) -> Result<Vec<Part>, AllocError>
    ensures { IfOk result (λ parts. map alternative_of parts.items ≡ words_first_of words) }
{
    let mut parts = Vec::new(alloc);
    let Some(words) = words else {
        return Ok(parts);
    };
    parts.push(Part::Int(words))?;
    Ok(parts)
}

/// The words, then the offsets frame by frame.
fn parts(alloc: Global, value: &AVal) -> Result<Vec<Part>, AllocError>
    ensures parts { IfOk result (λ parts. map alternative_of parts.items ≡ alternatives value.now) }
    ensures kept { IsAbstract value.now }
{
    let mut rest = value.at();
    let mut parts = words_first(alloc, value.int())?;
    while let Some((first, further)) = rest.split_first() {
        parts.push(Part::At(first.0, first.1))?;
        rest = further;
    }
    Ok(parts)
}

/// This part, and then the others.
fn with_first(alloc: Global, first: &Part, others: &[Part]) -> Result<Vec<Part>, AllocError>
    ensures { IfOk result (λ chosen. parts_of chosen ≡ alternative_of first.now ∷ map alternative_of others.now) }
{
    let mut chosen = Vec::new(alloc);
    chosen.push(*first)?;
    chosen.extend_from_slice(others)?;
    Ok(chosen)
}

/// Adds this part with each of the choices after it.
fn each_after(
    alloc: Global,
    all: &mut Vec<Vec<Part>>,
    first: &Part,
    choices: &[Vec<Part>],
) -> Result<(), AllocError>
    ensures { OnOk result
        (map parts_of all.new.items
        ≡ map parts_of all.old.items ++ each_after_of (alternative_of first.now) (map parts_of choices.now)) }
{
    let mut rest = choices;
    while let Some((others, further)) = rest.split_first() {
        let chosen = with_first(alloc, first, others)?;
        all.push(chosen)?;
        rest = further;
    }
    Ok(())
}

/// Each of the parts with each of the choices after it, the parts slowest.
fn each_first(
    alloc: Global,
    firsts: &[Part],
    choices: &[Vec<Part>],
) -> Result<Vec<Vec<Part>>, AllocError>
    ensures { IfOk result
        (λ all. map parts_of all.items ≡ each_first_of (map alternative_of firsts.now) (map parts_of choices.now)) }
{
    let mut all = Vec::new(alloc);
    let mut rest = firsts;
    while let Some((first, further)) = rest.split_first() {
        each_after(alloc, &mut all, first, choices)?;
        rest = further;
    }
    Ok(all)
}

/// The choice of no part.
fn no_parts(alloc: Global) -> Result<Vec<Vec<Part>>, AllocError>
    ensures { IfOk result (λ all. map parts_of all.items ≡ choices_of []) }
{
    let mut all = Vec::new(alloc);
    all.push(Vec::new(alloc))?;
    Ok(all)
}

/// Each part of the value with each of the choices after it.
fn with_operand(
    alloc: Global,
    value: &AVal,
    choices: &[Vec<Part>],
) -> Result<Vec<Vec<Part>>, AllocError>
    ensures all { IfOk result
        (λ all. map parts_of all.items ≡ each_first_of (alternatives value.now) (map parts_of choices.now)) }
    ensures kept { IsAbstract value.now }
{
    let firsts = parts(alloc, value)?;
    let all = each_first(alloc, &firsts, choices)?;
    Ok(all)
}

/// Every choice of one part for each operand, the first operand slowest.
pub fn choices(alloc: Global, args: &[AVal]) -> Result<Vec<Vec<Part>>, AllocError>
    ensures choices { IfOk result (λ all. map parts_of all.items ≡ choices_of (map alternatives args.now)) }
    ensures kept { IfOk result (λ all. AreAbstract args.now) }
{
    let Some((first, others)) = args.split_first() else {
        return no_parts(alloc);
    };
    let rest = choices(alloc, others)?;
    let all = with_operand(alloc, first, &rest)?;
    Ok(all)
}
