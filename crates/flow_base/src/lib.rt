//! What every layer stands on: names, places, numbers in digits, and the outside as two traits.
//!
//! A `Shelf` gives files by name and a `Sink` takes a text. A shelf may tell its files and a sink
//! what it took, and the clauses of both speak of what is told. `SureShelf`, `SureSink`,
//! `MemoryShelf` and `MemorySink` tell everything and are proved. `StreamShelf` and `StreamSink` are
//! proved over whatever opens files and takes pieces of a text: they tell what that tells, and fail only
//! where it may. `FolderShelf` and `StdSink` are these over the files and the output of the system, which
//! tell nothing. What is trusted is the system's own open, read and write.
#![tactic(auto)]

// Parts of a text, and what may be counted in it.
mod name;
mod numeral;
mod place;
mod places;

// The outside: what is asked of it.
mod shelf;
mod sink;

// The outside in memory: one that never fails, and one that fails as it is told to.
mod memory_shelf;
mod memory_sink;
mod sure;

// The outside in pieces: any files that are opened and read, any output, and those of the system.
mod folder;
mod output;
mod refusal;
mod source;
mod standard;
mod stream_shelf;
mod stream_sink;
mod streams;

// Rows, worked out by hand.
mod worked;

pub use folder::{Folder, FolderFile, FolderShelf};
pub use memory_shelf::MemoryShelf;
pub use memory_sink::MemorySink;
pub use name::Name;
pub use numeral::digits;
pub use output::Output;
pub use place::{Place, Which};
pub use places::place_of;
pub use refusal::Refusal;
pub use shelf::{ReadError, Shelf};
pub use sink::{Sink, WriteError};
pub use source::{Open, Source};
pub use standard::{StandardOutput, StdSink};
pub use stream_shelf::StreamShelf;
pub use stream_sink::StreamSink;
pub use streams::{read_whole, write_whole};
pub use sure::{SureShelf, SureSink};
pub use worked::{digits_write_numbers, places_count_lines_and_columns};
