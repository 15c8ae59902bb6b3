//! The standard output.

ghost use Rattle.std.specs.Prelude.{◌≡◌, None, ⊤};

use crate::refusal::once_less;
use crate::{Output, Refusal, StreamSink};
use std::io::{self, Write};

/// Standard output. It tells nothing of what it took.
pub type StdSink<'a, P> = StreamSink<StandardOutput<'a, P>>;

/// The standard output of the system.
#[derive(Drop)]
pub struct StandardOutput<'a, P: Print> {
    runtime: &'a P,
    // How often a write may still be interrupted.
    patience: u32,
}

impl<'a, P: Print> StreamSink<StandardOutput<'a, P>> {
    /// The standard output of this runtime; no write has failed. Takes no memory.
    pub fn new(runtime: &'a P) -> Self
        ensures { (result.writes ≡ 0) × (result.faults ≡ 0) }
    {
        StreamSink::over(StandardOutput {
            runtime,
            patience: u32::MAX,
        })
    }
}

impl<P: Print> Output for StandardOutput<'_, P> {
    ghost taken = { λ _. None };

    ghost fails = { λ _. ⊤ };

    ghost patience = { λ it. it.patience };

    fn write(&mut self, bytes: &[u8]) -> Result<usize, Refusal> {
        match io::writer(self.runtime).write(bytes) {
            Ok(count) => Ok(count),
            Err(error) => Err(once_less(Refusal::of(&error), &mut self.patience)),
        }
    }
}
