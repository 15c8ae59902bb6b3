//! What a walk through a program finds.
ghost use Rattle.std.specs.Prelude.{◌≡◌};
ghost use Rattle.alf_faults.specs.Fault.{is_exactly as is_exactly_lem};

use flow_base::Name;

/// A fault, by names of the program.
#[derive(Clone, Copy, Drop)]
pub enum Found<'a> {
    Duplicate(&'a Name),
    /// A number that two targets of a switch have.
    Repeated(u64),
    Unknown(&'a Name),
    /// An item's number stands beside the name of its function, and none beside that of a frame.
    Size(&'a Name, Option<usize>),
}

/// Whether a place was found, and it is this one.
pub fn is_exactly(place: usize, found: Option<usize>) -> bool
    ensures { result ≡ is_exactly_lem place found }
{
    match found {
        Some(other) => other == place,
        None => false,
    }
}
