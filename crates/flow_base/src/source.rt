//! Files that are opened by name, and read piece by piece.

ghost use Rattle.std.specs.Prelude.{◌≡◌, ◌≢◌, ◌≤◌, ◌<◌, ℕ, List, Option, Some, IfOk, IfErr, IfSome, IsSomeAnd, IsErrOf};
ghost use Rattle.std.specs.Io.{ReadsAtMost};
ghost use Rattle.std.specs.Io.KnownBytes.{ReadConsumes};
ghost use Rattle.flow_base.specs.Outside.{Files};

use crate::Refusal;

/// An opened file, or whatever else gives bytes piece by piece.
///
/// It may tell the bytes that it has left. Not telling them is always allowed, and so is that a read
/// may fail; a source of which it is said that none does never answers `Failed`.
pub trait Source {
    /// The bytes that reads will give from here on, where they are told.
    ghost left: { Self → Option (List ℕ) };
    /// A read of it may fail.
    ghost fails: { Self → Type 0 };
    /// How often a read may still be interrupted.
    ghost patience: { Self → ℕ };

    /// Reads some bytes to the front of the piece: how many, and none only at the end.
    fn read(&mut self, piece: &mut [u8]) -> Result<usize, Refusal>
        ensures within { ReadsAtMost result piece.new }
        ensures bytes { ReadConsumes (left self.old) (left self.new) result piece.new }
        ensures due { IsErrOf result Refusal.Failed → fails self.old }
        ensures later { fails self.new → fails self.old }
        ensures patient { patience self.new ≤ patience self.old }
        ensures interrupted { IsErrOf result Refusal.Interrupted → patience self.new < patience self.old };
}

/// Where files are opened, by name.
///
/// It may tell which files there are. Not telling them is always allowed, and so is that the file of a
/// name may fail, to be opened or to be read.
pub trait Open {
    /// An opened file.
    type Source: Source + Drop;

    /// The files, where they are told.
    ghost files: { Self → Option Files };
    /// The file of this name may fail.
    ghost fails: { Self → List ℕ → Type 0 };

    /// Opens the file of this name, at its start.
    fn open(&self, name: &str) -> Result<Self::Source, Refusal>
        ensures left { IfOk result (λ source. IfSome (files self.now)
            (λ told. IsSomeAnd (Self.Source.left source) (λ all. told name.now ≡ Some all))) }
        ensures later { IfOk result (λ source. Self.Source.fails source → fails self.now name.now) }
        ensures due { IfErr result (λ why. why ≢ Refusal.Memory → fails self.now name.now) };
}
