//! `check FILE REPORT`: a report of unknown origin is accepted, or the first thing that speaks against it is told.

ghost use Rattle.std.specs.Prelude.{◌≡◌, [], ◌∷◌, IfOk};
ghost use Rattle.alf_check.specs.CheckedPrograms.{NumberedProgram, seen};
ghost use Rattle.alf_check.specs.Inputs.{KeepInputs};
ghost use Rattle.flow_graph.specs.Numbering.{IsGraph};
ghost use Rattle.flow_facts.specs.Reports.{reported};
ghost use Rattle.program_machines.specs.NodeCosts.{HasCosts};
ghost use Rattle.report_objections.specs.Accepted.{IsScaled};
ghost use Rattle.command_plans.specs.Works.{Works, Judges, OverRead};
ghost use Rattle.command_files.specs.Seen.{IsOutlined, scoped_of, tables_of};
ghost use Rattle.sweet_cli.specs.Words.{check_meant};
ghost use Rattle.sweet_cli.specs.Task.{IsPromised};
ghost use Rattle.sweet_cli.specs.Check.{check, AcceptMeans, IsAcceptedOf, IsSoundTold, accepted, checking};
ghost use Rattle.sweet_cli.specs.Check.{report_judged};

use crate::commands::analyse::priced;
use crate::words::CheckWords;
use answer_texts::objection_line;
use command_files::{ScopedProgram, Tables, report_in, scoped_in, tables_in};
use command_plans::{Stop, Why};
use cost_table::a_file_has_one_answer;
use flow_base::Shelf;
use flow_facts::Report;
use program_checks::{a_report_has_one_check, objection_to_report};
use std::alloc::{AllocError, Global};

/// The text of a report that is accepted.
#[tactic(auto, unfolding(crate::specs::Check::checking))]
pub fn check<F: Shelf>(alloc: Global, given: CheckWords<'_>, shelf: &mut F) -> Result<Vec<u8>, Stop>
    ensures work { Works (checking (check_meant given.entry)) (λ text. text.items)
        (F.state shelf.old) result (F.state shelf.new) }
    ensures promise { IfOk result
        (λ text. IsPromised (check (check_meant given.entry)) (F.state shelf.old) (F.state shelf.new) text.items) }
{
    a_file_has_one_answer();
    let program = scoped_in(alloc, given.program, given.root, shelf)?;
    let tables = tables_in(
        alloc,
        &program.expanded.checked,
        given.inputs,
        given.costs,
        shelf,
    )?;
    let text = report_judged(alloc, given.report, program, &tables, shelf)?;
    Ok(text)
}

// The report is read and judged.
#[tactic(auto, unfolding(crate::specs::Check::report_judged))]
fn report_judged<F: Shelf>(
    alloc: Global,
    file: &str,
    program: ScopedProgram,
    tables: &Tables,
    shelf: &mut F,
) -> Result<Vec<u8>, Stop>
    requires graph { IsGraph (seen program.expanded.checked) program.expanded.graph }
    requires rows { KeepInputs (seen program.expanded.checked) tables.now.rows.items }
    requires outline { IsOutlined program.expanded.graph program.outline }
    ensures work { Works (report_judged file.now (scoped_of program) (tables_of tables.now)) (λ text. text.items)
        (F.state shelf.old) result (F.state shelf.new) }
    ensures sound { IfOk result (λ text. OverRead (F.state shelf.old) (F.state shelf.new) (file.now ∷ []) (λ files. IsSoundTold file.now files
        (seen program.expanded.checked) program.expanded.graph tables.now.rows.items tables.now.costs)) }
{
    let report = report_in(alloc, file, shelf)?;
    let text = judged(alloc, program, tables, &report)?;
    Ok(text)
}

// What the report is answered, with these costs of blocks.
fn judged(
    alloc: Global,
    program: ScopedProgram,
    tables: &Tables,
    report: &Report,
) -> Result<Vec<u8>, Stop>
    requires graph { IsGraph (seen program.expanded.checked) program.expanded.graph }
    requires rows { KeepInputs (seen program.expanded.checked) tables.now.rows.items }
    requires outline { IsOutlined program.expanded.graph program.outline }
    requires scaled { IsScaled (reported report.now) }
    ensures means { Judges (AcceptMeans (scoped_of program) tables.now.rows.items tables.now.costs
        (reported report.now)) (λ text. text.items) result }
    ensures sound { IfOk result (λ text. IsAcceptedOf (seen program.expanded.checked) program.expanded.graph
        tables.now.rows.items tables.now.costs (reported report.now)) }
{
    let program = priced(program, &tables.costs);
    answered(alloc, &program, tables, report)
}

// The same where the outline says what nodes cost.
fn answered(
    alloc: Global,
    program: &ScopedProgram,
    tables: &Tables,
    report: &Report,
) -> Result<Vec<u8>, Stop>
    requires graph { IsGraph (seen program.now.expanded.checked) program.now.expanded.graph }
    requires rows { KeepInputs (seen program.now.expanded.checked) tables.now.rows.items }
    requires outline { IsOutlined program.now.expanded.graph program.now.outline }
    requires priced { (other : NumberedProgram) → IsGraph other program.now.expanded.graph
        → HasCosts other program.now.expanded.graph tables.now.costs program.now.outline }
    requires scaled { IsScaled (reported report.now) }
    ensures means { Judges (AcceptMeans (scoped_of program.now) tables.now.rows.items tables.now.costs
        (reported report.now)) (λ text. text.items) result }
    ensures sound { IfOk result (λ text. IsAcceptedOf (seen program.now.expanded.checked)
        program.now.expanded.graph tables.now.rows.items tables.now.costs (reported report.now)) }
{
    let expanded = &program.expanded;
    let outline = &program.outline;
    expanded.checked.keeps();
    outline.kept();
    a_report_has_one_check();
    let rows = tables.rows.as_slice();
    let checked = &expanded.checked;
    let found = objection_to_report(alloc, checked, &expanded.graph, outline, rows, report)?;
    match found {
        None => {
            let text = accepted(alloc)?;
            Ok(text)
        }
        Some(objection) => {
            let line = objection_line(alloc, objection)?;
            Err(Stop::Told(Why::No, line))
        }
    }
}

// The text of a report that is accepted.
fn accepted(alloc: Global) -> Result<Vec<u8>, AllocError>
    ensures { IfOk result (λ text. text.items ≡ accepted) }
{
    Vec::from_slice(alloc, b"accepted\n")
}
