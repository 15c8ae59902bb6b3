//! Why a call of a stream did nothing.

ghost use Rattle.std.specs.Prelude.{◌≡◌, ◌≢◌, ◌≤◌, ◌<◌, ◌↔◌};
ghost use Rattle.std.specs.IoError.{error_kind};

use std::io::{Error, ErrorKind};

/// Why a call of a stream did nothing.
#[derive(Clone, Copy, Debug, PartialEq, Eq)]
pub enum Refusal {
    /// The call was interrupted, and is to be made again.
    Interrupted,
    /// Memory ran out.
    Memory,
    /// The call failed.
    Failed,
}

impl Refusal {
    /// What an error of the system says. Takes no memory.
    pub fn of(error: &Error) -> Refusal
        ensures interrupted { result ≡ Refusal.Interrupted ↔ error_kind error.now ≡ ErrorKind.Interrupted }
        ensures memory { result ≡ Refusal.Memory ↔ error_kind error.now ≡ ErrorKind.OutOfMemory }
        ensures failed { result ≡ Refusal.Failed
            → (error_kind error.now ≢ ErrorKind.Interrupted) × (error_kind error.now ≢ ErrorKind.OutOfMemory) }
    {
        match error.kind() {
            ErrorKind::Interrupted => Refusal::Interrupted,
            ErrorKind::OutOfMemory => Refusal::Memory,
            _ => Refusal::Failed,
        }
    }
}

/// The refusal of a stream that may be interrupted so often still: an interruption uses one up, and where none is left it
/// is a failure. Takes no memory.
pub fn once_less(refusal: Refusal, patience: &mut u32) -> Refusal
    ensures patient { patience.new ≤ patience.old }
    ensures interrupted { result ≡ Refusal.Interrupted → patience.new < patience.old }
    ensures same { refusal ≢ Refusal.Interrupted → result ≡ refusal }
    ensures goes_on { 0 < patience.old → result ≡ refusal }
{
    if refusal != Refusal::Interrupted {
        return refusal;
    }
    if *patience == 0 {
        return Refusal::Failed;
    }
    *patience -= 1;
    refusal
}
