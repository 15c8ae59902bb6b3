//! Lines that tell where a text departs from the grammar.

ghost use Rattle.std.specs.Prelude.{◌≡◌, ◌++◌, string_bytes, codes, IfOk, IsSomeAnd};
ghost use Rattle.alf_text.specs.Language.{departure_of};
ghost use Rattle.program_files.specs.FaultLines.{which_word, place_text, limit_line, fault_line};

use alf_text::TextFault;
use flow_base::{Name, Place, Which};
use std::alloc::{AllocError, Global};

/// The line that tells where a text departs from the grammar. Want of memory has none.
pub fn fault_line(alloc: Global, fault: &TextFault) -> Result<Vec<u8>, AllocError>
    ensures { IfOk result
        (λ line. IsSomeAnd (departure_of fault.now) (λ departure. line.items ≡ fault_line departure)) }
{
    match fault {
        TextFault::Syntax(place) => {
            let place = place_text(alloc, *place)?;
            let line = format!(in alloc; "fault 10 syntax {place}\n")?;
            Ok(line.into_bytes())
        }
        TextFault::Number(place) => {
            let place = place_text(alloc, *place)?;
            let line = format!(in alloc; "fault 11 number {place}\n")?;
            Ok(line.into_bytes())
        }
        TextFault::OutOfProfile(place, word) => profile_line(alloc, *place, word),
        TextFault::Limit(which, count) => limit_line(alloc, *which, *count),
        TextFault::Memory => Err(AllocError),
    }
}

/// The line of a quantity that passes its limit.
pub fn limit_line(alloc: Global, which: Which, count: u64) -> Result<Vec<u8>, AllocError>
    ensures { IfOk result (λ line. line.items ≡ limit_line which count) }
{
    let word = which_word(which);
    let line = format!(in alloc; "fault 13 limit {word} {count}\n")?;
    Ok(line.into_bytes())
}

fn profile_line(alloc: Global, place: Place, word: &Name) -> Result<Vec<u8>, AllocError>
    ensures { IfOk result
        (λ line. line.items
        ≡ codes "fault 12 profile " ++ (place_text place ++ (codes " \"" ++ (word.now ++ codes "\"\n")))) }
{
    let place = place_text(alloc, place)?;
    let start = format!(in alloc; "fault 12 profile {place} \"")?;
    let mut line = start.into_bytes();
    line.extend_from_slice(word.bytes())?;
    line.extend_from_slice(b"\"\n")?;
    Ok(line)
}

/// The line and the column.
pub fn place_text(alloc: Global, place: Place) -> Result<String, AllocError>
    ensures { IfOk result (λ text. string_bytes text ≡ place_text place) }
{
    let line = place.line;
    let column = place.column;
    let text = format!(in alloc; "{line} {column}")?;
    Ok(text)
}

/// The word of a quantity that has a limit.
pub fn which_word(which: Which) -> &'static str
    ensures { result.now ≡ which_word which }
{
    match which {
        Which::Bytes => "bytes",
        Which::Depth => "depth",
        Which::Functions => "functions",
        Which::Frames => "frames",
        Which::FrameBytes => "frame-bytes",
        Which::AllBytes => "all-bytes",
        Which::Nodes => "nodes",
        Which::Edges => "edges",
        Which::Parens => "parens",
        Which::Nesting => "nesting",
        Which::Elements => "elements",
        Which::Statements => "statements",
        Which::Tasks => "tasks",
    }
}
