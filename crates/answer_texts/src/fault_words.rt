//! The words of faults.

ghost use Rattle.std.specs.Prelude.{◌≡◌};
ghost use Rattle.answer_texts.specs.FaultWords.{fault_word};

use alf_ops::RunFault;

/// The word of a fault.
pub fn word_of(cause: RunFault) -> &'static str
    ensures { result.now ≡ fault_word cause }
{
    match cause {
        RunFault::Divide => "divide",
        RunFault::Uninit => "uninit",
        RunFault::Mixed => "mixed",
        RunFault::Bounds => "bounds",
        RunFault::Dead => "dead",
        RunFault::Kind => "kind",
        RunFault::Pointers => "pointers",
    }
}
