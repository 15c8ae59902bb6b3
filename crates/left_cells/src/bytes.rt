//! Bytes that read alike.

ghost use Rattle.std.specs.Prelude.{◌≡◌, None, IfOk, IfSome, IsTrue};
ghost use Rattle.pointer_rules.specs.AbstractValues.{AbstractValue};
ghost use Rattle.alf_ops.specs.declared.history.RunFault.TheVariants.{Uninit};
ghost use Rattle.domain_core.specs.FaultSets.{no_faults, with_fault};
ghost use Rattle.memory_model.specs.KeptMemories.{memory_in, rows_of, IsMemory};
ghost use Rattle.left_cells.specs.Bytes.{IsOneNumber, IsLone, EachIsUnset, ReadAlikeIn};

use crate::cells::words_in;
use abstract_memory::AMem;
use alf_ops::RunFault;
use domain_core::FaultSet;
use interval_congruence::Strided;
use std::alloc::{AllocError, Global};

/// Whether the one fault is that nothing was stored.
fn is_uninit(faults: FaultSet) -> bool
    ensures { IsTrue result → faults ≡ with_fault no_faults Uninit }
{
    faults == FaultSet::none().with(RunFault::Uninit)
}

/// Whether in each history that the memory stands for a load of the byte tells that nothing was stored in it.
fn is_unset(alloc: Global, memory: &AMem<'_>, frame: u32, byte: u32) -> Result<bool, AllocError>
    requires { IsMemory memory.now }
    ensures { IfOk result
        (λ unset. IsTrue unset → EachIsUnset (rows_of memory.now.checked) (memory_in memory.now) frame byte) }
{
    let (found, faults) = memory.load_cell(alloc, frame, byte, 8)?;
    if found.is_some() {
        return Ok(false);
    }
    Ok(is_uninit(faults))
}

/// Whether the words have this number alone.
fn is_number(words: Strided, number: i128) -> bool
    ensures { IsTrue result → IsOneNumber words number }
{
    words.lo() == number && words.hi() == number
}

/// Whether both are one word, and the same.
fn are_one(a: Option<Strided>, b: Option<Strided>) -> bool
    ensures { IsTrue result → IsLone a b }
{
    match (a, b) {
        (Some(first), Some(second)) => {
            let number = first.lo();
            is_number(first, number) && is_number(second, number)
        }
        _ => false,
    }
}

/// Whether a load of the byte gives after each history that the first memory stands for what it gives after each history
/// that the second one stands for. It may say no where it does.
pub fn reads_alike(
    alloc: Global,
    first: &AMem<'_>,
    second: &AMem<'_>,
    frame: u32,
    byte: u32,
) -> Result<bool, AllocError>
    requires first { IsMemory first.now }
    requires second { IsMemory second.now }
    ensures { IfOk result
        (λ alike. IsTrue alike → ReadAlikeIn (rows_of first.now.checked) (rows_of second.now.checked)
        (memory_in first.now) (memory_in second.now) frame byte) }
{
    if is_unset(alloc, first, frame, byte)? {
        return is_unset(alloc, second, frame, byte);
    }
    let before = words_in(alloc, first, frame, byte, 8)?;
    let after = words_in(alloc, second, frame, byte, 8)?;
    Ok(are_one(before, after))
}
