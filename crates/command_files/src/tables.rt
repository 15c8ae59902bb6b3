//! The files of inputs and of costs that a command reads.

ghost use Rattle.std.specs.Prelude.{IfOk, option_map};
ghost use Rattle.alf_check.specs.CheckedPrograms.{seen};
ghost use Rattle.alf_check.specs.Inputs.{KeepInputs};
ghost use Rattle.command_plans.specs.Works.{Works, Judges};
ghost use Rattle.command_files.specs.Tables.{InputsMean, inputs_told, inputs_in, CostsMean, costs_told, costs_in};
ghost use Rattle.command_files.specs.Tables.{tables_in};
ghost use Rattle.command_files.specs.Seen.{tables_of};

use alf_check::{Checked, InputRow};
use answer_texts::table_line;
use command_plans::{Role, Stop, Why, read_file};
use cost_table::{Costs, a_file_has_one_answer, costs, inputs};
use flow_base::Shelf;
use program_files::{MOST_BYTES_OF_A_FILE, TOO_LONG};
use std::alloc::Global;

/// The rows of inputs, and the costs of blocks.
#[derive(Drop)]
pub struct Tables {
    pub rows: Vec<InputRow>,
    pub costs: Costs,
}

/// Both, the inputs first.
#[tactic(auto, unfolding(crate::specs::Tables::tables_in))]
pub fn tables_in<F: Shelf>(
    alloc: Global,
    checked: &Checked,
    inputs: Option<&str>,
    costs: Option<&str>,
    shelf: &mut F,
) -> Result<Tables, Stop>
    ensures work { Works
        (tables_in (seen checked.now) (option_map (λ name. name.now) inputs.entry)
        (option_map (λ name. name.now) costs.entry)) tables_of (F.state shelf.old) result (F.state shelf.new) }
    ensures keep { IfOk result (λ tables. KeepInputs (seen checked.now) tables.rows.items) }
{
    let rows = inputs_in(alloc, checked, inputs, shelf)?;
    let costs = costs_in(alloc, checked, costs, shelf)?;
    Ok(Tables { rows, costs })
}

// The rows of inputs. Without a file there are none.
fn inputs_in<F: Shelf>(
    alloc: Global,
    checked: &Checked,
    file: Option<&str>,
    shelf: &mut F,
) -> Result<Vec<InputRow>, Stop>
    ensures work { Works (inputs_in (seen checked.now) (option_map (λ name. name.now) file.entry)) (λ rows. rows.items)
        (F.state shelf.old) result (F.state shelf.new) }
    ensures keep { IfOk result (λ rows. KeepInputs (seen checked.now) rows.items) }
{
    match file {
        None => Ok(Vec::new(alloc)),
        Some(file) => inputs_told(alloc, checked, file, shelf),
    }
}

// The rows of an inputs file.
#[tactic(auto, unfolding(crate::specs::Tables::inputs_told))]
fn inputs_told<F: Shelf>(
    alloc: Global,
    checked: &Checked,
    file: &str,
    shelf: &mut F,
) -> Result<Vec<InputRow>, Stop>
    ensures work { Works (inputs_told (seen checked.now) file.now) (λ rows. rows.items) (F.state shelf.old) result
        (F.state shelf.new) }
    ensures keep { IfOk result (λ rows. KeepInputs (seen checked.now) rows.items) }
{
    let bytes = read_file(
        alloc,
        shelf,
        Role::Inputs,
        file,
        MOST_BYTES_OF_A_FILE,
        TOO_LONG,
    )?;
    inputs_meant(alloc, checked, &bytes)
}

// The rows that the bytes mean.
fn inputs_meant(alloc: Global, checked: &Checked, bytes: &[u8]) -> Result<Vec<InputRow>, Stop>
    ensures means { Judges (InputsMean bytes.now (seen checked.now)) (λ rows. rows.items) result }
    ensures keep { IfOk result (λ rows. KeepInputs (seen checked.now) rows.items) }
{
    a_file_has_one_answer();
    match inputs(alloc, bytes, checked) {
        Ok(rows) => Ok(rows),
        Err(fault) => match table_line(alloc, "inputs", &fault) {
            Ok(line) => Err(Stop::Told(Why::Source, line)),
            Err(_) => Err(Stop::Memory),
        },
    }
}

// The costs of blocks. Without a file each is 1.
fn costs_in<F: Shelf>(
    alloc: Global,
    checked: &Checked,
    file: Option<&str>,
    shelf: &mut F,
) -> Result<Costs, Stop>
    ensures { Works (costs_in (seen checked.now) (option_map (λ name. name.now) file.entry)) (λ costs. costs)
        (F.state shelf.old) result (F.state shelf.new) }
{
    match file {
        None => Ok(Costs::ones(alloc)),
        Some(file) => costs_told(alloc, checked, file, shelf),
    }
}

// The costs of a costs file.
#[tactic(auto, unfolding(crate::specs::Tables::costs_told))]
fn costs_told<F: Shelf>(
    alloc: Global,
    checked: &Checked,
    file: &str,
    shelf: &mut F,
) -> Result<Costs, Stop>
    ensures { Works (costs_told (seen checked.now) file.now) (λ costs. costs) (F.state shelf.old) result
        (F.state shelf.new) }
{
    let bytes = read_file(
        alloc,
        shelf,
        Role::Costs,
        file,
        MOST_BYTES_OF_A_FILE,
        TOO_LONG,
    )?;
    costs_meant(alloc, checked, &bytes)
}

// The costs that the bytes mean.
fn costs_meant(alloc: Global, checked: &Checked, bytes: &[u8]) -> Result<Costs, Stop>
    ensures { Judges (CostsMean bytes.now (seen checked.now)) (λ costs. costs) result }
{
    a_file_has_one_answer();
    match costs(alloc, bytes, checked) {
        Ok(costs) => Ok(costs),
        Err(fault) => match table_line(alloc, "costs", &fault) {
            Ok(line) => Err(Stop::Told(Why::Source, line)),
            Err(_) => Err(Stop::Memory),
        },
    }
}
