//! The stepper.

ghost use Rattle.std.specs.Prelude.{◌≡◌, IfOk};
ghost use Rattle.alf_check.specs.CheckedPrograms.{seen};
ghost use Rattle.alf_check.specs.Inputs.{KeepInputs};
ghost use Rattle.flow_graph.specs.Numbering.{IsGraph};
ghost use Rattle.abstract_step.specs.Steppers.{GoesAlong};

use crate::ending::step_from;
use crate::here::Here;
use crate::start::first_memory;
use abstract_memory::AMem;
use alf_check::{Checked, InputRow};
use alf_ops::History;
use alf_runs::{
    a_step_leads_along_an_edge, active_frames_follow_the_call_path,
    starts_and_calls_store_without_a_fault, values_have_their_size,
};
use domain_core::{Lattice, Stepped, Stepper};
use flow_graph::{Graph, first_edges, graphs_are_expansions};
use std::alloc::{AllocError, Global};
use std::marker::Model;
use transfer_rules::parts_are_a_machine;

/// The transfer of a program: it steps from node to node of the graph with memories that stand for histories of runs,
/// whose inputs are inside the ranges of their rows.
///
/// A step takes time by what its block evaluates, by a switch's targets and by the edges from the node, and memory for
/// what changes in the memories of the next nodes.
#[derive(Drop)]
pub struct AlfStepper<'a> {
    checked: &'a Checked,
    graph: &'a Graph,
    rows: &'a [InputRow],
    firsts: Vec<u32>,
}

impl<'a> Model for AlfStepper<'a> {
    ghost use Rattle.std.specs.Coded.{codes};
    ghost use Rattle.alf_check.specs.contracts.rows.Term as e;
    ghost use Rattle.abstract_step.specs.Steppers.{StepperParts, IsStepper};

    ghost Value = { StepperParts };

    ghost coded = { Prim.hlevel (codes, e.the_row.coded) };

    ghost view = { λ stepper. record {
      checked = stepper.checked.now;
      graph = stepper.graph.now;
      rows = stepper.rows.now;
    } };

    ghost invariant = { λ stepper. IsStepper (record {
      checked = stepper.checked.now;
      graph = stepper.graph.now;
      rows = stepper.rows.now;
    }) stepper.firsts.items };
}

impl<'a> AlfStepper<'a> {
    /// The stepper of a program and its graph, for runs whose inputs are inside the ranges of these rows.
    pub fn new(
        alloc: Global,
        checked: &'a Checked,
        graph: &'a Graph,
        rows: &'a [InputRow],
    ) -> Result<AlfStepper<'a>, AllocError>
        requires graph { IsGraph (seen checked.now) graph.now }
        requires rows { KeepInputs (seen checked.now) rows.now }
        ensures { IfOk result
            (λ stepper. stepper ≡ record { checked = checked.now; graph = graph.now; rows = rows.now }) }
    {
        let firsts = first_edges(alloc, graph)?;
        Ok(AlfStepper {
            checked,
            graph,
            rows,
            firsts,
        })
    }

    /// Each of its steps lies along an edge of the graph.
    pub fn goes_along(&self)
        ensures { GoesAlong self.now }
    {
        parts_are_a_machine();
        self.kept();
    }
}

impl<'a> Stepper for AlfStepper<'a> {
    ghost use Rattle.abstract_step.specs.Steppers.{stepped_by};
    ghost use Rattle.transfer_rules.specs.PartMachineLaws.{is_part_machine};

    type State = AMem<'a>;

    type Concrete = History;

    ghost machine = { stepped_by };

    ghost is_machine = { λ stepper kept. is_part_machine stepper.checked stepper.graph stepper.rows kept };

    fn kept(&self) {
        self.checked.keeps();
        a_step_leads_along_an_edge();
        active_frames_follow_the_call_path();
        graphs_are_expansions();
        starts_and_calls_store_without_a_fault();
        values_have_their_size();
    }

    fn start(&self, alloc: Global) -> Result<AMem<'a>, AllocError> {
        let memory = first_memory(alloc, self.checked, self.rows)?;
        Ok(memory)
    }

    fn step(
        &self,
        alloc: Global,
        node: u32,
        state: &AMem<'a>,
    ) -> Result<Stepped<AMem<'a>>, AllocError> {
        let stepped = self.step_owned(alloc, node, state.copy(alloc)?)?;
        Ok(stepped)
    }

    fn step_owned(
        &self,
        alloc: Global,
        node: u32,
        state: AMem<'a>,
    ) -> Result<Stepped<AMem<'a>>, AllocError> {
        let here = Here::new(self.checked, self.graph, &self.firsts, node);
        let stepped = step_from(alloc, &here, state)?;
        Ok(stepped)
    }
}
