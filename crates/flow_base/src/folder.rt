//! The files of the system.

ghost use Rattle.std.specs.Prelude.{◌≡◌, None, ⊤};

use crate::refusal::once_less;
use crate::{Open, Refusal, Source, StreamShelf};
use std::fs;
use std::io::Read;
use std::rt::Files;

/// The files of the system, by path. It tells nothing of them.
///
/// Which bytes a file holds no clause says: that is the system's to tell.
pub type FolderShelf<'a, R> = StreamShelf<Folder<'a, R>>;

/// Opens files of the system.
#[derive(Drop)]
pub struct Folder<'a, R: Files> {
    runtime: &'a R,
}

/// A file of the system that was opened.
#[derive(Drop)]
pub struct FolderFile<R: Files> {
    file: R::File,
    // How often a read may still be interrupted.
    patience: u32,
}

impl<'a, R: Files> StreamShelf<Folder<'a, R>> {
    /// The files that this runtime reaches; no read has failed. Takes no memory.
    pub fn new(runtime: &'a R) -> Self
        ensures { (result.reads ≡ 0) × (result.faults ≡ 0) × (result.failed ≡ None) }
    {
        StreamShelf::over(Folder { runtime })
    }
}

impl<R: Files> Open for Folder<'_, R> {
    type Source = FolderFile<R>;

    ghost files = { λ _. None };

    ghost fails = { λ _ _. ⊤ };

    fn open(&self, name: &str) -> Result<FolderFile<R>, Refusal> {
        match fs::open(self.runtime, name) {
            Ok(file) => Ok(FolderFile {
                file,
                patience: u32::MAX,
            }),
            Err(error) => Err(Refusal::of(&error)),
        }
    }
}

impl<R: Files> Source for FolderFile<R> {
    ghost left = { λ _. None };

    ghost fails = { λ _. ⊤ };

    ghost patience = { λ it. it.patience };

    fn read(&mut self, piece: &mut [u8]) -> Result<usize, Refusal> {
        match self.file.read(piece) {
            Ok(count) => Ok(count),
            Err(error) => Err(once_less(Refusal::of(&error), &mut self.patience)),
        }
    }
}
