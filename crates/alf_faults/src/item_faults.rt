//! What is wrong with a program.

ghost use Rattle.std.specs.Prelude.{◌≡◌, ◌≤◌, ◌^◌, IfOk, IfSome, IfNone};
ghost use Rattle.alf_faults.specs.Fault.{Duplicate};
ghost use Rattle.alf_faults.specs.FoundFaults.{told, fault_of};
ghost use Rattle.alf_faults.specs.Duplicates.{number_twice};

use crate::findings::Found;
use flow_base::Name;
use std::alloc::{AllocError, Global};

/// What is wrong with a program's names or sizes.
#[derive(Drop)]
pub enum ItemFault {
    /// Nothing of this name stands where it is looked for.
    Unknown(Name),
    /// The name stands twice. Where two targets of a switch have one number, it is the number's
    /// unsigned digits.
    Duplicate(Name),
    /// A size rule is broken: at the item of this number of the function of this name, where items
    /// are counted from 0 and labels count too; or, with no number, at the frame of this name that
    /// is exported or holds a number at first.
    Size(Name, Option<u32>),
}

/// The fault, by names of its own.
pub fn owned(alloc: Global, found: Found) -> Result<ItemFault, AllocError>
    ensures { IfOk result (λ fault. fault_of fault ≡ told found.entry) }
{
    match found {
        Found::Duplicate(name) => Ok(ItemFault::Duplicate(Name::new(alloc, name.bytes())?)),
        Found::Repeated(number) => Ok(ItemFault::Duplicate(digits(alloc, number)?)),
        Found::Unknown(name) => Ok(ItemFault::Unknown(Name::new(alloc, name.bytes())?)),
        Found::Size(name, None) => Ok(ItemFault::Size(Name::new(alloc, name.bytes())?, None)),
        Found::Size(name, Some(place)) => {
            // Items are numbered by 32 bits, and one after those is told as want of memory.
            let Some(number) = item_number(place) else {
                return Err(AllocError);
            };
            Ok(ItemFault::Size(Name::new(alloc, name.bytes())?, Some(number)))
        }
    }
}

// The number of the item at a place, where 32 bits hold it.
fn item_number(place: usize) -> Option<u32>
    ensures number { IfSome result (λ number. number ≡ place) }
    ensures past { IfNone result (2 ^ 32 ≤ place) }
{
    u32::try_from(place).ok()
}

// The number in digits.
fn digits(alloc: Global, number: u64) -> Result<Name, AllocError>
    ensures { IfOk result (λ name. Duplicate name ≡ number_twice number) }
{
    let text = format!(in alloc; "{number}")?;
    Name::new(alloc, text.as_bytes())
}
