//! The check.

ghost use Rattle.std.specs.Prelude.{◌≡◌, IfOk, None};
ghost use Rattle.alf_check.specs.CheckedPrograms.{seen};
ghost use Rattle.alf_check.specs.Inputs.{KeepInputs};
ghost use Rattle.cost_table.specs.CostTables.{CostTable};
ghost use Rattle.domain_core.specs.Outlines.{shape_of};
ghost use Rattle.domain_core.specs.OutlineOf.{IsOutlineOf};
ghost use Rattle.flow_graph.specs.Numbering.{IsGraph};
ghost use Rattle.flow_facts.specs.Reports.{reported};
ghost use Rattle.scope_graph.specs.Placing.{plan_of};
ghost use Rattle.memory_model.specs.SeenOrders.{parts_order};
ghost use Rattle.abstract_step.specs.Steppers.{stepped_by};
ghost use Rattle.program_machines.specs.NodeCosts.{HasCosts};
ghost use Rattle.report_objections.specs.Checks.{IsChecked};
ghost use Rattle.report_objections.specs.Accepted.{IsScaled, IsSoundWithPath};
ghost use Rattle.program_checks.specs.Sound.{IsSoundAccepted};

use abstract_step::AlfStepper;
use alf_check::{Checked, InputRow};
use domain_core::Outline;
use flow_facts::Report;
use flow_graph::Graph;
use program_analysis::sound_reports_are_sound_for_the_program;
use report_checks::objection_to;
use report_objections::Objection;
use std::alloc::{AllocError, Global};

/// The first thing that speaks against a report of a program, for runs with inputs inside the ranges of the rows.
pub fn objection_to_report(
    alloc: Global,
    checked: &Checked,
    graph: &Graph,
    outline: &Outline,
    rows: &[InputRow],
    report: &Report,
) -> Result<Option<Objection>, AllocError>
    requires graph { IsGraph (seen checked.now) graph.now }
    requires rows { KeepInputs (seen checked.now) rows.now }
    requires outline { IsOutlineOf (plan_of graph.now) (shape_of outline.now) }
    requires scaled { IsScaled (reported report.now) }

    // The answer is the first of the objections that holds.
    ensures answer { IfOk result
        (λ objection. IsChecked stepped_by parts_order
        (record { checked = checked.now; graph = graph.now; rows = rows.now }) outline.now (reported report.now)
        objection) }

    // Where nothing speaks against it, each run of the program ends, meets each fact, faults only where an alarm says
    // so, and costs at most each bound.
    ensures sound { IfOk result
        (λ objection. objection ≡ None → (costs : CostTable) → HasCosts (seen checked.now) graph.now costs outline.now
        → IsSoundAccepted (seen checked.now) graph.now rows.now (shape_of outline.now) costs (reported report.now)) }
{
    checked.keeps();
    sound_reports_are_sound_for_the_program();
    let stepper = AlfStepper::new(alloc, checked, graph, rows)?;
    let objection = objection_along(alloc, &stepper, outline, report)?;
    Ok(objection)
}

// The same, told of the system of the stepper's machine.
fn objection_along(
    alloc: Global,
    stepper: &AlfStepper<'_>,
    outline: &Outline,
    report: &Report,
) -> Result<Option<Objection>, AllocError>
    requires outline { IsOutlineOf (plan_of stepper.now.graph) (shape_of outline.now) }
    requires scaled { IsScaled (reported report.now) }
    ensures answer { IfOk result
        (λ objection. IsChecked stepped_by parts_order stepper.now outline.now (reported report.now) objection) }
    ensures sound { IfOk result
        (λ objection. objection ≡ None
        → IsSoundWithPath (stepped_by stepper.now).system outline.now (reported report.now)) }
{
    stepper.goes_along();
    let objection = objection_to(alloc, stepper, outline, report)?;
    Ok(objection)
}
