//! What takes bytes piece by piece.

ghost use Rattle.std.specs.Prelude.{◌≡◌, ◌≢◌, ◌≤◌, ◌<◌, ℕ, List, Option, IfOk, IfErr, IsErrOf, OnErr, length, take};
ghost use Rattle.flow_base.specs.Sinks.{Appended};

use crate::Refusal;

/// What takes bytes piece by piece.
///
/// It may tell the bytes that it took. Not telling them is always allowed, and so is that a write may
/// fail; an output of which it is said that none does refuses only where it is interrupted.
pub trait Output {
    /// The bytes that it took, where they are told.
    ghost taken: { Self → Option (List ℕ) };
    /// A write to it may fail.
    ghost fails: { Self → Type 0 };
    /// How often a write may still be interrupted.
    ghost patience: { Self → ℕ };

    /// Takes some of the bytes, from the front: how many. One that takes nothing has failed, and a call
    /// that is refused takes nothing.
    fn write(&mut self, bytes: &[u8]) -> Result<usize, Refusal>
        requires { 0 < length bytes.now }
        ensures nothing { IfOk result (λ count. count ≡ 0 → fails self.old) }
        ensures within { IfOk result (λ count. count ≤ length bytes.now) }
        ensures bytes { IfOk result (λ count. Appended (taken self.old) (taken self.new) (take count bytes.now)) }
        ensures refused { OnErr result (taken self.new ≡ taken self.old) }
        ensures due { IfErr result (λ why. why ≢ Refusal.Interrupted → fails self.old) }
        ensures later { fails self.new → fails self.old }
        ensures patient { patience self.new ≤ patience self.old }
        ensures interrupted { IsErrOf result Refusal.Interrupted → patience self.new < patience self.old };
}
