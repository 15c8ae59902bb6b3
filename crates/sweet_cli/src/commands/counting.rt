//! One run of the program that a command reads, counted.

ghost use Rattle.std.specs.Prelude.{◌<◌, IfOk};
ghost use Rattle.alf_check.specs.CheckedPrograms.{seen};
ghost use Rattle.alf_check.specs.Inputs.{KeepInputs};
ghost use Rattle.alf_runs.specs.Places.{AreWords};
ghost use Rattle.flow_graph.specs.Numbering.{IsGraph};
ghost use Rattle.program_files.specs.Seen.{expanded_of};
ghost use Rattle.sweet_cli.specs.Counting.{CountedAs};

use crate::node_costs::node_costs;
use alf_check::InputRow;
use alf_interp::{Counted, count};
use cost_table::Costs;
use program_files::Expanded;
use std::alloc::{AllocError, Global};

/// What is counted of the run whose inputs have these words.
pub fn counted(
    alloc: Global,
    expanded: &Expanded,
    rows: &[InputRow],
    words: &[u64],
    costs: &Costs,
    turns: u32,
) -> Result<Counted, AllocError>
    requires graph { IsGraph (seen expanded.now.checked) expanded.now.graph }
    requires rows { KeepInputs (seen expanded.now.checked) rows.now }
    requires words { AreWords rows.now words.now }
    ensures { IfOk result (λ counted. CountedAs (expanded_of expanded.now) rows.now words.now costs.now turns counted) }
{
    let costs = node_costs(alloc, &expanded.graph, costs)?;
    count(
        alloc,
        &expanded.checked,
        &expanded.graph,
        rows,
        words,
        &costs,
        turns,
    )
}
