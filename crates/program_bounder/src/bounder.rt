//! The bounder of a program.

ghost use Rattle.std.specs.Prelude.{◌≡◌, IfOk, IfSome};
ghost use Rattle.worst_inputs.specs.declared.bounder.Bounded.TheVariants.{At};
ghost use Rattle.program_bounder.specs.PathBounding.{Suits, path_bounding};

use crate::rows::with_ranges;
use alf_check::{Checked, InputRow};
use cost_table::Costs;
use domain_core::Outline;
use flow_facts::Report;
use flow_graph::Graph;
use program_analysis::{BoundedAnalysis, analyse};
use std::alloc::{AllocError, Global};
use worklist_rules::Policy;
use worst_inputs::{Bounded, Bounder, Range};

/// What bounds areas of a program's inputs: the path bounds of its analyses.
#[derive(Drop)]
pub struct PathBounder {
    /// The program.
    pub checked: Checked,
    /// Its graph.
    pub graph: Graph,
    /// The outline of the graph, with what its nodes cost.
    pub outline: Outline,
    /// What blocks cost.
    pub costs: Costs,
    /// The rows of inputs. An area gives each of them another range.
    pub rows: Vec<InputRow>,
    /// Where an analysis merges places.
    pub policy: Policy,
    /// How many turns an analysis has at most.
    pub turns: u32,
    /// How many pivots it makes at most.
    pub pivots: u32,
}

// The path bound of a report that has one.
fn path_bound(report: &Report) -> Bounded
    ensures { IfSome report.now.path_bound (λ b. result ≡ At b.0) }
{
    match report.path_bound {
        Some((bound, _)) => Bounded::At(bound),
        None => Bounded::At(0),
    }
}

// The path bound of the rows with the ranges of the area.
fn bound_of(alloc: Global, bounder: &PathBounder, area: &[Range]) -> Result<Bounded, AllocError>
    requires { Suits bounder.now area.now }
    ensures { IfOk result (λ bounded. (path_bounding bounder.now).answers area.now bounded) }
{
    let given = bounder.rows.as_slice();
    let rows = with_ranges(alloc, given, area)?;
    match analyse(
        alloc,
        &bounder.checked,
        &bounder.graph,
        &bounder.outline,
        &rows,
        bounder.policy,
        bounder.turns,
        bounder.pivots,
    )? {
        BoundedAnalysis::Told(report, _) => Ok(path_bound(&report)),
        BoundedAnalysis::Unbounded(scope) => Ok(Bounded::Left(scope)),
    }
}

impl Bounder for PathBounder {
    ghost use Rattle.program_bounder.specs.declared.bounder.PathBounder.{PathBounder as Given};
    ghost use Rattle.program_bounder.specs.PathBoundingLaws.{path_bounds_are_bounding};

    ghost Named = { Given };

    ghost named = { λ bounder. bounder };

    ghost bounding = { path_bounding };

    ghost is_bounding = { path_bounds_are_bounding };

    fn bound(&mut self, alloc: Global, area: &[Range]) -> Result<Bounded, AllocError> {
        bound_of(alloc, self, area)
    }
}
