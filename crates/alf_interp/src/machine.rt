//! The machine.

ghost use Rattle.std.specs.Prelude.{◌≡◌, ◌<◌, IfOk, length};
ghost use Rattle.alf_check.specs.CheckedPrograms.{seen};
ghost use Rattle.alf_check.specs.Inputs.{KeepInputs};
ghost use Rattle.alf_values.specs.Memories.{IsMadeFor};
ghost use Rattle.alf_values.specs.Standing.{StandsFor};
ghost use Rattle.flow_graph.specs.Numbering.{IsGraph};
ghost use Rattle.alf_runs.specs.Starts.{start, start_history};
ghost use Rattle.alf_runs.specs.Places.{AreWords};
ghost use Rattle.alf_runs.specs.Steps.{Moment, step};
ghost use Rattle.flow_graph.specs.Edges.{AreFirstEdges};
ghost use Rattle.alf_interp.specs.Machines.{StandsAt, IsStanding};
ghost use Rattle.alf_interp.specs.Telling.{Tells};
ghost use Rattle.alf_interp.specs.Stepping.{machine_at, next_number};

use crate::filling::{enter, put_inits, put_inputs};
use crate::moved::Moved;
use crate::turn::{Instance, Turn, take_turn};
use alf_check::{Checked, InputRow};
use alf_runs::{a_step_leads_along_an_edge, active_frames_follow_the_call_path};
use alf_values::{Frames, ValueFault};
use flow_graph::{Graph, first_edges, next_func, next_node};
use std::alloc::{AllocError, Global};
use std::marker::Model;

/// A machine that makes the runs of a program, step by step.
///
/// It is seen as its program, its graph, the number of the node where it stands, and its memory. A
/// step takes time by what its block evaluates and by the count of a switch's targets, and memory for
/// the arguments of a call and for outputs alone.
#[derive(Drop)]
pub struct Machine<'a> {
    alloc: Global,
    checked: &'a Checked,
    graph: &'a Graph,
    firsts: Vec<u32>,
    frames: Frames,
    node: u32,
}

impl<'a> Model for Machine<'a> {
    ghost use Rattle.std.specs.Coded.{codes};
    ghost use Rattle.alf_check.specs.CheckedPrograms.{seen};
    ghost use Rattle.alf_check.specs.contracts.rows.Term as e;
    ghost use Rattle.alf_interp.specs.Machines.{RunMachine};

    ghost Value = { RunMachine };

    ghost coded = { Prim.hlevel (codes, e.the_row.coded) };

    ghost use Rattle.alf_interp.specs.Stepping.{IsMachine};

    ghost view = { λ machine. record {
      checked = machine.checked.now;
      graph = machine.graph.now;
      node = machine.node;
      memory = machine.frames;
    } };

    ghost invariant = { λ machine. IsMachine (seen machine.checked.now) machine.graph.now machine.firsts.items machine.node machine.frames };
}

impl<'a> Machine<'a> {
    /// A machine that stands where the runs start whose inputs have these words: at the root's entry,
    /// which is node 0.
    pub fn start(
        alloc: Global,
        checked: &'a Checked,
        graph: &'a Graph,
        rows: &[InputRow],
        words: &[u64],
    ) -> Result<Machine<'a>, AllocError>
        requires graph { IsGraph (seen checked.now) graph.now }
        requires rows { KeepInputs (seen checked.now) rows.now }
        requires words { AreWords rows.now words.now }
        ensures checked { IfOk result (λ machine. machine.checked ≡ checked.now) }
        ensures graph { IfOk result (λ machine. machine.graph ≡ graph.now) }
        ensures first { IfOk result (λ machine. machine.node ≡ 0) }
        ensures stands { IfOk result (λ machine. StandsAt machine (start (seen checked.now) rows.now words.now)) }
    {
        checked.keeps();
        active_frames_follow_the_call_path();
        let firsts = first_edges(alloc, graph)?;
        let frames = first_frames(alloc, checked, rows, words)?;
        Ok(Machine {
            alloc,
            checked,
            graph,
            firsts,
            frames,
            node: 0,
        })
    }

    /// Makes a step, of every run at which the machine stands.
    ///
    /// After an end, a fault or a refusal nothing tells that the machine stands anywhere, so it is
    /// not stepped again.
    pub fn step(&mut self) -> Result<Moved, AllocError>
        requires { IsStanding self.old }
        ensures checked { self.new.checked ≡ self.old.checked }
        ensures graph { self.new.graph ≡ self.old.graph }
        ensures steps { IfOk result
            (λ moved. (moment : Moment) → StandsAt self.old moment
            → Tells self.new moved (step (seen self.old.checked) moment)) }
    {
        let moved = move_on(
            self.alloc,
            self.checked,
            self.graph,
            &self.firsts,
            self.node,
            &mut self.frames,
        )?;
        self.node = number_after(self.node, &moved);
        Ok(moved)
    }
}

// The number of the node where the machine stands after a step.
fn number_after(node: u32, moved: &Moved) -> u32
    ensures { result ≡ next_number node moved.now }
{
    match moved {
        Moved::To(next) => *next,
        Moved::Ended(_) => node,
        Moved::Faulted(_) => node,
    }
}

// A step at the node of this number.
fn move_on(
    alloc: Global,
    checked: &Checked,
    graph: &Graph,
    firsts: &[u32],
    node: u32,
    frames: &mut Frames,
) -> Result<Moved, AllocError>
    requires graph { IsGraph (seen checked.now) graph.now }
    requires firsts { AreFirstEdges graph.now firsts.now }
    requires there { node < length graph.now.nodes }
    requires made { IsMadeFor (seen checked.now) frames.old }
    requires standing { IsStanding (machine_at checked.now graph.now node frames.old) }
    ensures made { IsMadeFor (seen checked.now) frames.new }
    ensures there { IfOk result (λ moved. next_number node moved < length graph.now.nodes) }
    ensures tells { IfOk result
        (λ moved. (moment : Moment) → StandsAt (machine_at checked.now graph.now node frames.old) moment
        → Tells (machine_at checked.now graph.now (next_number node moved) frames.new) moved
        (step (seen checked.now) moment)) }
{
    checked.keeps();
    a_step_leads_along_an_edge();
    active_frames_follow_the_call_path();
    let here = graph.node(node);
    let instance = Instance {
        path: here.path,
        func: here.func,
        caller: next_func(graph, firsts, node),
    };
    match take_turn(alloc, checked, &instance, here.block, frames) {
        Ok(Turn::On(block)) => Ok(Moved::To(next_node(graph, firsts, node, block))),
        Ok(Turn::Ended(outputs)) => Ok(Moved::Ended(outputs)),
        Err(ValueFault::Run(fault)) => Ok(Moved::Faulted(fault)),
        Err(ValueFault::Memory) => Err(AllocError),
    }
}

// The frames where runs start whose inputs have these words.
fn first_frames(
    alloc: Global,
    checked: &Checked,
    rows: &[InputRow],
    words: &[u64],
) -> Result<Frames, AllocError>
    requires rows { KeepInputs (seen checked.now) rows.now }
    requires words { AreWords rows.now words.now }
    ensures made { IfOk result (λ frames. IsMadeFor (seen checked.now) frames) }
    ensures stands { IfOk result (λ frames. StandsFor frames (start_history (seen checked.now) rows.now words.now)) }
{
    checked.keeps();
    let mut frames = Frames::new(alloc, checked)?;
    put_inits(&mut frames, checked.inits());
    match enter(checked, &mut frames, checked.root(), &[]) {
        Ok(()) => {}
        Err(_) => return Err(AllocError),
    }
    put_inputs(&mut frames, rows, words);
    Ok(frames)
}
