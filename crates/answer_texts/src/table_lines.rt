//! Lines that tell why a file of inputs or of costs is refused.

ghost use Rattle.std.specs.Prelude.{◌≡◌, IfOk, Some};
ghost use Rattle.answer_texts.specs.TableLines.{table_line};

use cost_table::TableFault;
use program_files::{limit_line, number_or_dash};
use std::alloc::{AllocError, Global};

/// The line of a file that is refused; the role is its word. Want of memory has none.
pub fn table_line(alloc: Global, role: &str, fault: &TableFault) -> Result<Vec<u8>, AllocError>
    ensures { IfOk result (λ line. table_line role.now fault.now ≡ Some line.items) }
{
    match fault {
        TableFault::Toml => {
            let line = format!(in alloc; "fault 70 toml {role}\n")?;
            Ok(line.into_bytes())
        }
        TableFault::Key(place) => {
            let place = number_or_dash(alloc, *place)?;
            let line = format!(in alloc; "fault 71 key {role} {place}\n")?;
            Ok(line.into_bytes())
        }
        TableFault::Range(place) => {
            let place = *place;
            let line = format!(in alloc; "fault 72 range {role} {place}\n")?;
            Ok(line.into_bytes())
        }
        TableFault::NoSuchCell(place) => {
            let place = *place;
            let line = format!(in alloc; "fault 73 cell {role} {place}\n")?;
            Ok(line.into_bytes())
        }
        TableFault::Limit(which, count) => limit_line(alloc, *which, *count),
        TableFault::Memory => Err(AllocError),
    }
}
