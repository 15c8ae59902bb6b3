//! The analysis.

ghost use Rattle.std.specs.Prelude.{◌≤◌, IfOk};
ghost use Rattle.alf_check.specs.CheckedPrograms.{seen};
ghost use Rattle.alf_check.specs.Inputs.{KeepInputs};
ghost use Rattle.alf_check.specs.Kept.{IsKept};
ghost use Rattle.cost_table.specs.CostTables.{CostTable};
ghost use Rattle.domain_core.specs.Outlines.{shape_of};
ghost use Rattle.domain_core.specs.OutlineOf.{IsOutlineOf};
ghost use Rattle.flow_graph.specs.Numbering.{IsGraph};
ghost use Rattle.scope_graph.specs.Placing.{plan_of};
ghost use Rattle.memory_model.specs.SeenOrders.{parts_order};
ghost use Rattle.abstract_step.specs.Steppers.{stepped_by};
ghost use Rattle.program_machines.specs.NodeCosts.{HasCosts};
ghost use Rattle.program_analysis.specs.Bounds.{most_turns};
ghost use Rattle.line_cache.specs.Lines.{IsShape};
ghost use Rattle.code_layout.specs.Layouts.{all_statements, most_statements};
ghost use Rattle.cached_runs.specs.Answers.{answer_of, IfTold};
ghost use Rattle.cached_runs.specs.CachedRuns.{IsFound, AreSoundLines as IsSoundSystem};
ghost use Rattle.cache_analysis.specs.CodeAccesses.{HasCodeNotes};
ghost use Rattle.cache_analysis.specs.Analyses.{IsCacheAnalysis};
ghost use Rattle.cache_analysis.specs.Sound.{IsSoundCache};

use crate::laws::sound_lines_are_sound_for_the_program;
use abstract_step::AlfStepper;
use alf_check::{Checked, InputRow};
use cached_runs::{Cached, cached};
use domain_core::Outline;
use flow_graph::{Graph, graphs_are_expansions};
use line_cache::Shape;
use std::alloc::{AllocError, Global};
use worklist_rules::Policy;

/// Explores a program's graph along its outline, for runs with inputs inside the ranges of the rows, and tells at which
/// nodes each access to the cache of the notes hits, and what a run costs at most with the penalties of its misses; or
/// the scope in which the turns were used up.
///
/// Takes time by the turns, by what steps take, and by the lines of nodes; and memory for the places that are left.
pub fn analyse(
    alloc: Global,
    checked: &Checked,
    graph: &Graph,
    outline: &Outline,
    shape: Shape,
    rows: &[InputRow],
    policy: Policy,
    turns: u32,
) -> Result<Cached, AllocError>
    requires graph { IsGraph (seen checked.now) graph.now }
    requires few { all_statements (seen checked.now) ≤ most_statements }
    requires rows { KeepInputs (seen checked.now) rows.now }
    requires outline { IsOutlineOf (plan_of graph.now) (shape_of outline.now) }
    requires shape { IsShape shape }
    requires noted { HasCodeNotes (seen checked.now) graph.now shape outline.now }
    requires turns { turns ≤ most_turns }

    // What the policy finds over the pools of the program's machine with the rule of the recorder.
    ensures found { IfOk result (λ cached. (costs : CostTable) → HasCosts (seen checked.now) graph.now costs outline.now
        → IsCacheAnalysis (seen checked.now) graph.now rows.now shape costs policy turns (answer_of cached)) }

    // Whatever the cache had at first, each run of the program ends, costs with the penalties of its misses no more
    // than the bound, and hits at each node that is told.
    ensures sound { IfOk result
        (λ cached. IfTold (answer_of cached)
        (λ lines. (costs : CostTable) → HasCosts (seen checked.now) graph.now costs outline.now
        → IsSoundCache (seen checked.now) graph.now rows.now shape costs lines)) }
{
    checked.keeps();
    sound_lines_are_sound_for_the_program();
    let stepper = AlfStepper::new(alloc, checked, graph, rows)?;
    explored(alloc, &stepper, outline, shape, policy, turns)
}

// What the policy finds, told of the system of the stepper's machine.
fn explored(
    alloc: Global,
    stepper: &AlfStepper<'_>,
    outline: &Outline,
    shape: Shape,
    policy: Policy,
    turns: u32,
) -> Result<Cached, AllocError>
    requires keeps { IsKept (seen stepper.now.checked) }
    requires graph { IsGraph (seen stepper.now.checked) stepper.now.graph }
    requires few { all_statements (seen stepper.now.checked) ≤ most_statements }
    requires outline { IsOutlineOf (plan_of stepper.now.graph) (shape_of outline.now) }
    requires shape { IsShape shape }
    requires noted { HasCodeNotes (seen stepper.now.checked) stepper.now.graph shape outline.now }
    requires turns { turns ≤ most_turns }
    ensures found { IfOk result
        (λ cached. IsFound stepped_by parts_order stepper.now outline.now policy turns (answer_of cached)) }
    ensures sound { IfOk result
        (λ cached. IfTold (answer_of cached) (IsSoundSystem (stepped_by stepper.now).system outline.now)) }
{
    stepper.goes_along();
    outline.costs_fit();
    graphs_are_expansions();
    cached(alloc, stepper, outline, policy, turns)
}
