//! The cells.

ghost use Rattle.std.specs.Prelude.{◌≡◌, ◌<◌, ◌≤◌, ◌^◌, IfOk, IfSome, IsTrue, List};
ghost use Rattle.alf_ops.specs.declared.history.Value.{Value};
ghost use Rattle.alf_ops.specs.declared.history.RunEvent.{RunEvent};
ghost use Rattle.domain_core.specs.FaultSets.{no_faults};
ghost use Rattle.pointer_rules.specs.AbstractValues.{Covers};
ghost use Rattle.pointer_rules.specs.Covering.{IsValue};
ghost use Rattle.memory_rules.specs.Covers.{IsCellSize};
ghost use Rattle.memory_rules.specs.Memories.{MemCovers};
ghost use Rattle.memory_rules.specs.AbstractSets.{abstract_sets};
ghost use Rattle.memory_model.specs.KeptMemories.{memory_in, rows_of, IsMemory};
ghost use Rattle.left_cells.specs.Cells.{IsBetween, EachHoldsBetween, EachHoldsInside, IsRangeOf, IsSmallRange, IsSpan, IsWholeRange};

use abstract_memory::AMem;
use alf_check::InputRow;
use domain_core::FaultSet;
use interval_congruence::Strided;
use pointer_domain::AVal;
use std::alloc::{AllocError, Global};

/// Whether there is no fault.
fn is_none(faults: FaultSet) -> bool
    ensures { IsTrue result → faults ≡ no_faults }
{
    faults == FaultSet::none()
}

/// The words of a value that is no pointer.
fn words_alone(value: &AVal, size: u32) -> Option<Strided>
    requires { IsValue size value.now }
    ensures { IfSome result (λ words. (own : Value) → Covers value.now own
        → IsBetween size words.numbers.lo words.numbers.hi own) }
{
    if !value.at().is_empty() {
        return None;
    }
    value.int()
}

/// Words of which the cell holds one in each history that the memory stands for; None where this is not known: perhaps
/// nothing was stored in a part of it, or a pointer.
pub fn words_in(
    alloc: Global,
    memory: &AMem<'_>,
    frame: u32,
    offset: u32,
    size: u32,
) -> Result<Option<Strided>, AllocError>
    requires kept { IsMemory memory.now }
    requires size { IsCellSize size }
    ensures { IfOk result
        (λ found. IfSome found
        (λ words. EachHoldsBetween (rows_of memory.now.checked) (memory_in memory.now) frame offset size
        words.numbers.lo words.numbers.hi)) }
{
    let (found, faults) = memory.load_cell(alloc, frame, offset, size)?;
    if !is_none(faults) {
        return Ok(None);
    }
    match found {
        None => Ok(None),
        Some(value) => Ok(words_alone(&value, size)),
    }
}

/// 2 to the size, of cells of 8, 16, 32 or 64 bits; else 0.
fn span(size: u32) -> i128
    ensures { IsSpan size result }
{
    match size {
        8 => 256,
        16 => 65_536,
        32 => 4_294_967_296,
        64 => 18_446_744_073_709_551_616,
        _ => 0,
    }
}

/// Whether the numbers of the words lie in the range of the row once they are moved up by so much.
fn lies_moved(row: &InputRow, words: Strided, by: i128) -> bool
    requires small { IsSmallRange row.now }
    requires by { IsSpan row.now.size by }
    ensures { IsTrue result → IsRangeOf row.now words.numbers.lo words.numbers.hi }
{
    row.low - by <= words.lo() && words.hi() <= row.high - by
}

/// Whether the range of the row has every word, where 2 to the size is this.
fn is_whole(row: &InputRow, by: i128) -> bool
    requires small { IsSmallRange row.now }
    requires by { IsSpan row.now.size by }
    ensures { IsTrue result → IsWholeRange row.now }
{
    by - 1 <= row.high - row.low && 0 < by
}

/// Whether the words are those of numbers in the range of the row: as they are, or moved up by 2 to the size, as those
/// above half are in a range of unsigned numbers; or the range has every word.
fn lies_in(row: &InputRow, words: Strided) -> bool
    requires { IsSmallRange row.now }
    ensures { IsTrue result → IsRangeOf row.now words.numbers.lo words.numbers.hi }
{
    let by = span(row.size);
    lies_moved(row, words, 0) || lies_moved(row, words, by) || is_whole(row, by)
}

/// Whether the cell of the row holds a number inside its range in each history that the memory stands for. It may say
/// no where it does.
pub fn is_inside(alloc: Global, memory: &AMem<'_>, row: &InputRow) -> Result<bool, AllocError>
    requires kept { IsMemory memory.now }
    requires size { IsCellSize row.now.size }
    requires range { IsSmallRange row.now }
    ensures { IfOk result
        (λ inside. IsTrue inside → EachHoldsInside (rows_of memory.now.checked) (memory_in memory.now) row.now) }
{
    match words_in(alloc, memory, row.frame, row.offset, row.size)? {
        None => Ok(false),
        Some(words) => Ok(lies_in(row, words)),
    }
}
