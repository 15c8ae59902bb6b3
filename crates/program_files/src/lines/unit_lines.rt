//! Lines that tell where a text of C departs from the grammar.

ghost use Rattle.std.specs.Prelude.{◌≡◌, ◌++◌, codes, IfOk, IsSomeAnd};
ghost use Rattle.c_text.specs.Language.{departure_of};
ghost use Rattle.program_files.specs.FaultLines.{place_text};
ghost use Rattle.program_files.specs.UnitLines.{unit_limit_line, unit_line};

use crate::lines::fault_lines::{place_text, which_word};
use c_text::CTextFault;
use flow_base::{Name, Place, Which};
use std::alloc::{AllocError, Global};

/// The line that tells where a text of C departs from the grammar. Want of memory has none.
pub fn unit_line(alloc: Global, fault: &CTextFault) -> Result<Vec<u8>, AllocError>
    ensures { IfOk result (λ line. IsSomeAnd (departure_of fault.now) (λ departure. line.items ≡ unit_line departure)) }
{
    match fault {
        CTextFault::Syntax(place) => {
            let place = place_text(alloc, *place)?;
            let line = format!(in alloc; "fault 90 syntax {place}\n")?;
            Ok(line.into_bytes())
        }
        CTextFault::Number(place) => {
            let place = place_text(alloc, *place)?;
            let line = format!(in alloc; "fault 91 number {place}\n")?;
            Ok(line.into_bytes())
        }
        CTextFault::OutOfProfile(place, word) => outside_line(alloc, *place, word),
        CTextFault::Limit(which, count) => limit_line(alloc, *which, *count),
        CTextFault::Memory => Err(AllocError),
    }
}

fn limit_line(alloc: Global, which: Which, count: u64) -> Result<Vec<u8>, AllocError>
    ensures { IfOk result (λ line. line.items ≡ unit_limit_line which count) }
{
    let word = which_word(which);
    let line = format!(in alloc; "fault 93 limit {word} {count}\n")?;
    Ok(line.into_bytes())
}

fn outside_line(alloc: Global, place: Place, word: &Name) -> Result<Vec<u8>, AllocError>
    ensures { IfOk result
        (λ line. line.items
        ≡ codes "fault 92 profile " ++ (place_text place ++ (codes " \"" ++ (word.now ++ codes "\"\n")))) }
{
    let place = place_text(alloc, place)?;
    let start = format!(in alloc; "fault 92 profile {place} \"")?;
    let mut line = start.into_bytes();
    line.extend_from_slice(word.bytes())?;
    line.extend_from_slice(b"\"\n")?;
    Ok(line)
}
