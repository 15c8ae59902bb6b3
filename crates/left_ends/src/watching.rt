//! The exploration.

ghost use Rattle.std.specs.Prelude.{◌≡◌, ◌<◌, ◌≤◌, ◌-◌, ◌^◌, ℕ, length, IfOk, OnOk};
ghost use Rattle.alf_check.specs.CheckedPrograms.{seen};
ghost use Rattle.alf_check.specs.Inputs.{KeepInputs};
ghost use Rattle.domain_core.specs.declared.event.Event.{Event as AnEvent};
ghost use Rattle.domain_core.specs.Outlines.{shape_of};
ghost use Rattle.domain_core.specs.OutlineOf.{IsOutlineOf};
ghost use Rattle.flow_graph.specs.Numbering.{IsGraph};
ghost use Rattle.scope_graph.specs.Placing.{plan_of};
ghost use Rattle.abstract_exec.specs.Points.{AreMergePoints};
ghost use Rattle.watched_steps.specs.Watched.{WatchesStep};
ghost use Rattle.left_ends.specs.Seen.{AreEnds, StandsForAll, EndsIn};
ghost use Rattle.left_ends.specs.Watching.{IsPoolOf, IsTurn, IsWatchedFor};
ghost use Rattle.left_ends.specs.Answers.{EndsTold};

use crate::Ends;
use crate::looking::look;
use crate::silent::Silent;
use abstract_exec::{ExecFault, Pool};
use abstract_memory::AMem;
use abstract_step::AlfStepper;
use alf_check::{Checked, InputRow};
use domain_core::{Event, Outline};
use flow_graph::Graph;
use std::alloc::{AllocError, Global};
use worklist_rules::Policy;

/// Looks at the place that the event steps, if it steps one.
fn look_before<'a>(
    alloc: Global,
    checked: &'a Checked,
    graph: &Graph,
    rows: &[InputRow],
    pool: &Pool<'_, AlfStepper<'a>, Silent>,
    event: Event,
    ends: Option<AMem<'a>>,
) -> Result<Option<AMem<'a>>, AllocError>
    requires graph { IsGraph (seen checked.now) graph.now }
    requires pool { IsPoolOf checked.now graph.now rows.now pool.now }
    requires there { (place : ℕ) → event ≡ Event.Step place → place < length pool.now.spots }
    requires ends { AreEnds checked.now ends }
    ensures are { IfOk result (AreEnds checked.now) }
    ensures more { IfOk result (StandsForAll ends.entry) }
    ensures looked { IfOk result (λ all. WatchesStep (EndsIn checked.now graph.now all) pool.now event) }
{
    match event {
        Event::Step(place) => look(
            alloc,
            checked,
            graph,
            ends,
            pool.node_at(place),
            pool.state_at(place),
        ),
        Event::Merge(_, _) => Ok(ends),
    }
}

/// Applies the policy's next event, after a look at the place that it steps.
fn turn<'a>(
    alloc: Global,
    checked: &'a Checked,
    graph: &Graph,
    rows: &[InputRow],
    pool: &mut Pool<'_, AlfStepper<'a>, Silent>,
    policy: Policy,
    points: &[bool],
    ends: Option<AMem<'a>>,
) -> Result<Option<AMem<'a>>, AllocError>
    requires graph { IsGraph (seen checked.now) graph.now }
    requires pool { IsPoolOf checked.now graph.now rows.now pool.old }
    requires points { AreMergePoints (shape_of pool.old.outline) policy points.now }
    requires some { 0 < length pool.old.spots }
    requires room { pool.old.steps < 2 ^ 32 - 2 }
    requires ends { AreEnds checked.now ends }
    ensures are { IfOk result (AreEnds checked.now) }
    ensures more { IfOk result (StandsForAll ends.entry) }
    ensures pool { OnOk result (IsPoolOf checked.now graph.now rows.now pool.new) }
    ensures turn { IfOk result (λ all. IsTurn checked.now graph.now all pool.old pool.new) }
{
    let event = pool.choose(policy, points)?;
    let all = look_before(alloc, checked, graph, rows, pool, event, ends)?;
    match pool.apply(alloc, event) {
        Ok(()) => Ok(all),
        Err(ExecFault::Memory) => Err(AllocError),
        Err(ExecFault::BadEvent) => unreachable!(),
    }
}

/// Explores a program's graph along its outline, for runs with inputs inside the ranges of the rows, and tells what
/// the runs that end leave; or the scope in which the turns were used up.
///
/// Takes time by the turns and by what steps and the blocks that return take, and memory for the places that are left.
pub fn left_ends<'a>(
    alloc: Global,
    checked: &'a Checked,
    graph: &'a Graph,
    outline: &Outline,
    rows: &'a [InputRow],
    policy: Policy,
    turns: u32,
) -> Result<Ends<'a>, AllocError>
    requires graph { IsGraph (seen checked.now) graph.now }
    requires rows { KeepInputs (seen checked.now) rows.now }
    requires outline { IsOutlineOf (plan_of graph.now) (shape_of outline.now) }
    requires turns { turns < 2 ^ 32 - 1 }
    ensures { IfOk result (λ found. EndsTold checked.now graph.now rows.now found) }
{
    let stepper = AlfStepper::new(alloc, checked, graph, rows)?;
    stepper.goes_along();
    let mut pool: Pool<AlfStepper<'a>, Silent> = Pool::start(alloc, &stepper, outline)?;
    let points = pool.merge_points(alloc, policy)?;
    let mut ends = None;
    while pool.places() > 0 && pool.steps() < turns {
        ends = turn(
            alloc, checked, graph, rows, &mut pool, policy, &points, ends,
        )?;
    }
    if pool.places() == 0 {
        return Ok(Ends::All(ends));
    }
    let node = pool.node_at(0);
    Ok(Ends::Unbounded(outline.node(node).scope))
}
