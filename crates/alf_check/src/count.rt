//! Counts below 2^32 - 1.

ghost use Rattle.std.specs.Prelude.{◌≡◌, ◌<◌, ◌≤◌, suc, length, IfOk, OnOk, OnErr};

use std::alloc::AllocError;

/// The next number. There are fewer than `u32::MAX` members in a list, and more are want of memory.
pub fn next_number(number: u32) -> Result<u32, AllocError>
    ensures next { IfOk result (λ next. next ≡ suc number) }
    ensures few { IfOk result (λ next. next < 4294967295) }
    ensures many { OnErr result (4294967295 ≤ suc number) }
{
    if number >= u32::MAX - 1 {
        return Err(AllocError);
    }
    Ok(number + 1)
}

/// That there are fewer than `u32::MAX` members. More are want of memory.
pub fn few<T>(list: &[T]) -> Result<(), AllocError>
    ensures few { OnOk result (length list.now < 4294967295) }
    ensures many { OnErr result (4294967295 ≤ length list.now) }
{
    if list.len() >= u32::MAX as usize {
        return Err(AllocError);
    }
    Ok(())
}
