//! What a program without faults is, as a clause of a function that does nothing.

ghost use Rattle.alf_faults.specs.NoFault.{IsByParts};

/// A program has no fault exactly where none of its parts has one.
pub fn no_fault_is_by_parts()
    ensures { IsByParts }
{}
