//! `worst FILE`: where the worst inputs of the program lie.

ghost use Rattle.std.specs.Prelude.{◌≡◌, ◌≤◌, IfOk};
ghost use Rattle.alf_check.specs.CheckedPrograms.{seen};
ghost use Rattle.alf_check.specs.Inputs.{KeepInputs};
ghost use Rattle.flow_graph.specs.Numbering.{IsGraph};
ghost use Rattle.program_machines.specs.NodeCosts.{HasCosts};
ghost use Rattle.worst_inputs.specs.Searches.{found_of};
ghost use Rattle.worst_inputs.specs.Promises.{Bounds};
ghost use Rattle.program_bounder.specs.InputRows.{ranges_of};
ghost use Rattle.program_bounder.specs.InputCosts.{RunsCost};
ghost use Rattle.command_plans.specs.Works.{Works, Judges};
ghost use Rattle.command_files.specs.Seen.{IsOutlined, scoped_of};
ghost use Rattle.sweet_cli.specs.Words.{worst_meant};
ghost use Rattle.sweet_cli.specs.SeenBounders.{bounder_seen, BoxesMean};
ghost use Rattle.sweet_cli.specs.Analyse.{policy_of};
ghost use Rattle.sweet_cli.specs.Task.{IsPromised};
ghost use Rattle.sweet_cli.specs.Worst.{worst, WorstMeans, worsting};

use crate::commands::analyse::{policy, priced};
use crate::words::{Merging, WorstWords};
use answer_texts::{left_line, worst_text};
use command_files::{ScopedProgram, Tables, scoped_in, tables_in};
use command_plans::{Stop, Why};
use cost_table::a_file_has_one_answer;
use flow_base::Shelf;
use program_bounder::{PathBounder, worst_boxes};
use program_files::Expanded;
use std::alloc::Global;
use worklist_rules::Policy;
use worst_inputs::{Found, SearchFault};

/// The text that tells boxes of inputs.
#[tactic(auto, unfolding(crate::specs::Worst::worsting))]
pub fn worst<F: Shelf>(alloc: Global, given: WorstWords<'_>, shelf: &mut F) -> Result<Vec<u8>, Stop>
    requires turns { given.turns ≤ 1000000 }
    ensures work { Works (worsting (worst_meant given.entry)) (λ text. text.items)
        (F.state shelf.old) result (F.state shelf.new) }
    ensures promise { IfOk result
        (λ text. IsPromised (worst (worst_meant given.entry)) (F.state shelf.old) (F.state shelf.new) text.items) }
{
    a_file_has_one_answer();
    let program = scoped_in(alloc, given.program, given.root, shelf)?;
    let tables = tables_in(
        alloc,
        &program.expanded.checked,
        given.inputs,
        given.costs,
        shelf,
    )?;
    let found = found_in(
        alloc,
        program,
        tables,
        given.merging,
        given.turns,
        given.pivots,
        given.splits,
    )?;
    let text = worst_text(alloc, &found)?;
    Ok(text)
}

// The boxes, with these costs of blocks.
fn found_in(
    alloc: Global,
    program: ScopedProgram,
    tables: Tables,
    merging: Merging,
    turns: u32,
    pivots: u32,
    splits: u32,
) -> Result<Found, Stop>
    requires graph { IsGraph (seen program.expanded.checked) program.expanded.graph }
    requires rows { KeepInputs (seen program.expanded.checked) tables.rows.items }
    requires outline { IsOutlined program.expanded.graph program.outline }
    requires turns { turns ≤ 1000000 }
    ensures means { Judges (WorstMeans (scoped_of program) tables.rows.items tables.costs (policy_of merging)
        turns pivots splits) found_of result }
    ensures bounds { IfOk result (λ found. Bounds (RunsCost (seen program.expanded.checked)
        program.expanded.graph tables.rows.items tables.costs) (ranges_of tables.rows.items) (found_of found)) }
{
    let program = priced(program, &tables.costs);
    let mut bounder = bounder_of(program, tables, policy(merging), turns, pivots);
    searched(alloc, &mut bounder, splits)
}

// The bounder of the program, with the rows and the costs of the tables.
fn bounder_of(
    program: ScopedProgram,
    tables: Tables,
    policy: Policy,
    turns: u32,
    pivots: u32,
) -> PathBounder
    ensures { result ≡ bounder_seen program tables policy turns pivots }
{
    let ScopedProgram { expanded, outline } = program;
    let Expanded { checked, graph } = expanded;
    let Tables { rows, costs } = tables;
    PathBounder {
        checked,
        graph,
        outline,
        costs,
        rows,
        policy,
        turns,
        pivots,
    }
}

// The boxes that the bounder gives.
fn searched(alloc: Global, bounder: &mut PathBounder, splits: u32) -> Result<Found, Stop>
    requires graph { IsGraph (seen bounder.old.checked) bounder.old.graph }
    requires rows { KeepInputs (seen bounder.old.checked) bounder.old.rows.items }
    requires outline { IsOutlined bounder.old.graph bounder.old.outline }
    requires costs { HasCosts (seen bounder.old.checked) bounder.old.graph bounder.old.costs
        bounder.old.outline }
    requires turns { bounder.old.turns ≤ 1000000 }
    ensures means { Judges (BoxesMean bounder.old splits) found_of result }
    ensures bounds { IfOk result (λ found. Bounds (RunsCost (seen bounder.old.checked) bounder.old.graph
        bounder.old.rows.items bounder.old.costs) (ranges_of bounder.old.rows.items) (found_of found)) }
{
    match worst_boxes(alloc, bounder, splits) {
        Ok(found) => Ok(found),
        Err(SearchFault::Left(scope)) => {
            let line = left_line(alloc, &bounder.graph, &bounder.outline, scope)?;
            Err(Stop::Told(Why::Unbounded, line))
        }
        Err(SearchFault::Memory) => Err(Stop::Memory),
    }
}
