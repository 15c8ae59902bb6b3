//! The file of values that a command reads.

ghost use Rattle.std.specs.Prelude.{◌≡◌, length, option_map, IfOk};
ghost use Rattle.command_plans.specs.Works.{Works, Judges};
ghost use Rattle.command_files.specs.Values.{ValuesMean, values_in, values_told};

use alf_check::InputRow;
use answer_texts::table_line;
use command_plans::{Role, Stop, Why, read_file};
use cost_table::{a_values_file_has_one_answer, values};
use flow_base::Shelf;
use program_files::{MOST_BYTES_OF_A_FILE, TOO_LONG};
use std::alloc::Global;

/// The values of a run. Without a file they are those of a file without any.
pub fn values_in<F: Shelf>(
    alloc: Global,
    rows: &[InputRow],
    file: Option<&str>,
    shelf: &mut F,
) -> Result<Vec<i64>, Stop>
    ensures work { Works (values_in (length rows.now) (option_map (λ name. name.now) file.entry))
        (λ values. values.items)
        (F.state shelf.old) result (F.state shelf.new) }
    ensures one_each { IfOk result (λ values. length values.items ≡ length rows.now) }
{
    match file {
        None => values_meant(alloc, b"values = []\n", rows),
        Some(file) => values_told(alloc, rows, file, shelf),
    }
}

// The values of a values file.
#[tactic(auto, unfolding(crate::specs::Values::values_told))]
fn values_told<F: Shelf>(
    alloc: Global,
    rows: &[InputRow],
    file: &str,
    shelf: &mut F,
) -> Result<Vec<i64>, Stop>
    ensures work { Works (values_told (length rows.now) file.now) (λ values. values.items)
        (F.state shelf.old) result (F.state shelf.new) }
    ensures one_each { IfOk result (λ values. length values.items ≡ length rows.now) }
{
    let bytes = read_file(
        alloc,
        shelf,
        Role::Values,
        file,
        MOST_BYTES_OF_A_FILE,
        TOO_LONG,
    )?;
    values_meant(alloc, &bytes, rows)
}

// The values that the bytes mean.
fn values_meant(alloc: Global, bytes: &[u8], rows: &[InputRow]) -> Result<Vec<i64>, Stop>
    ensures means { Judges (ValuesMean bytes.now (length rows.now)) (λ values. values.items) result }
    ensures one_each { IfOk result (λ values. length values.items ≡ length rows.now) }
{
    a_values_file_has_one_answer();
    match values(alloc, bytes, rows) {
        Ok(values) => Ok(values),
        Err(fault) => match table_line(alloc, "values", &fault) {
            Ok(line) => Err(Stop::Told(Why::Source, line)),
            Err(_) => Err(Stop::Memory),
        },
    }
}
