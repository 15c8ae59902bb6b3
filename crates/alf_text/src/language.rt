//! Texts and what they mean.

ghost use Rattle.std.specs.Prelude.{◌≡◌, ℕ, List, Ok, Err, IfOk, IfErr, IfSome, IsSomeAnd};
ghost use Rattle.alf_program.specs.Tree.{program_of};
ghost use Rattle.alf_program.specs.Writable.{IsWritable};
ghost use Rattle.alf_reader.specs.Reading.{fault_of};
ghost use Rattle.alf_text.specs.Language.{Means, HasOneMeaning, departure_of, placed};

use crate::programs::program;
use crate::writable::writable_programs_are_spelled;
use alf_program::Program;
use alf_reader::{
    Counts, Departure, MOST_BYTES_OF_FRAMES, MOST_FRAMES, MOST_FUNCTIONS, Reader, TextFault,
};
use flow_base::{Name, place_of};
use std::alloc::Global;

// A text may have as much as the limits allow.
const LIMITS: Counts = Counts {
    functions: MOST_FUNCTIONS,
    frames: MOST_FRAMES,
    bytes: MOST_BYTES_OF_FRAMES,
};

/// The program that a text spells, or the text's first departure from the grammar.
///
/// The text is read from its first byte in one pass, and what it takes of memory is the program alone.
/// Reading goes as deep as expressions may stand in one another, and no deeper.
pub fn read(alloc: Global, bytes: &[u8]) -> Result<Program, TextFault>
    // A text means one thing (`one_meaning`), and this is it.
    ensures spelled { IfOk result (λ program. Means bytes.now (Ok (program_of program))) }
    ensures departs { IfErr result
        (λ fault. IfSome (departure_of fault) (λ departure. Means bytes.now (Err departure))) }
    // The condition of the checks.
    ensures writable { IfOk result (λ program. IsWritable (program_of program)) }
{
    writable_programs_are_spelled();
    let mut reader = Reader::new(alloc, bytes, LIMITS);
    match program(&mut reader) {
        Ok(program) => Ok(program),
        Err(departure) => Err(told(alloc, bytes, departure)),
    }
}

/// Each text spells exactly one program, or has exactly one first departure.
pub fn one_meaning()
    ensures { (bytes : List ℕ) → HasOneMeaning bytes }
{}

// The departure with its place in the text.
fn told(alloc: Global, bytes: &[u8], departure: Departure<'_>) -> TextFault
    ensures { IfSome (departure_of result)
        (λ told. IsSomeAnd (fault_of departure.entry) (λ fault. told ≡ placed bytes.now fault)) }
{
    match departure {
        Departure::Syntax(left) => TextFault::Syntax(place_of(bytes, left)),
        Departure::Number(left) => TextFault::Number(place_of(bytes, left)),
        Departure::OutOfProfile(left, word) => match Name::new(alloc, word) {
            Ok(name) => TextFault::OutOfProfile(place_of(bytes, left), name),
            Err(_) => TextFault::Memory,
        },
        Departure::Limit(which, count) => TextFault::Limit(which, count),
        Departure::Memory => TextFault::Memory,
    }
}
