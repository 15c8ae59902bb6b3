//! Lists of numbers below 256, as bytes.

ghost use Rattle.std.specs.Prelude.{◌≡◌, ◌↔◌, IsTrue, IfOk, slice_index, slice_set, ◌<◌, ◌+◌, ◌-◌, ◌^◌, length, replicate};
ghost use Rattle.flow_recorders.specs.SmallCounts.{AreSmall};

use std::alloc::{AllocError, Global};

/// Whether each number is below 256.
pub fn are_small(counts: &[u32]) -> bool
    ensures { IsTrue result ↔ AreSmall counts.now }
{
    for count in counts {
        if *count > 255 {
            return false;
        }
    }
    true
}

/// Whether each number is 0.
pub fn are_zeros(counts: &[u8]) -> bool
    ensures { IsTrue result ↔ (counts.now ≡ replicate (length counts.now) 0) }
{
    for count in counts {
        if *count > 0 {
            return false;
        }
    }
    true
}

/// The numbers as bytes.
pub fn narrowed(alloc: Global, counts: &[u32]) -> Result<Vec<u8>, AllocError>
    requires { AreSmall counts.now }
    ensures { IfOk result (λ bytes. bytes.items ≡ counts.now) }
{
    let mut bytes = Vec::with_capacity(alloc, counts.len())?;
    for i in 0..counts.len() {
        bytes.push(counts[i] as u8)?;
    }
    Ok(bytes)
}

/// The numbers of bytes.
fn widened(alloc: Global, bytes: &[u8]) -> Result<Vec<u32>, AllocError>
    ensures { IfOk result (λ counts. counts.items ≡ bytes.now) }
{
    let mut counts = Vec::with_capacity(alloc, bytes.len())?;
    for i in 0..bytes.len() {
        counts.push(bytes[i] as u32)?;
    }
    Ok(counts)
}

/// The numbers of bytes, with one more at a place.
pub fn widened_by(alloc: Global, bytes: &[u8], i: usize) -> Result<Vec<u32>, AllocError>
    requires { i < length bytes.now }
    ensures { IfOk result (λ counts. counts.items ≡ slice_set bytes.now i (slice_index bytes.now i + 1)) }
{
    let mut counts = widened(alloc, bytes)?;
    counts[i] += 1;
    Ok(counts)
}
