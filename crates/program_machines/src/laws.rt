//! What the definitions promise, as clauses of functions that do nothing.

ghost use Rattle.program_machines.specs.ProgramRuns.{ProgramRunsAreSystemRuns, SystemRunsAreProgramRuns, OverIsOver};
ghost use Rattle.program_machines.specs.ProgramRuns.{EndIsOver};
ghost use Rattle.program_machines.specs.Rankings.{HasOneRanking, HasOneShape};
ghost use Rattle.program_machines.specs.Starts.{HasLoneStart};

use alf_runs::{a_step_leads_along_an_edge, active_frames_follow_the_call_path};
use flow_graph::graphs_are_expansions;
use scope_graph::a_graph_has_one_outline;

/// Each run of a checked program from inputs inside the ranges is a run of its machine's system, point by point,
/// and each run of the system is one of the program. Where one of the two is over, so is the other, with the same
/// nodes and the same outcome.
pub fn runs_of_a_program_are_runs_of_its_machine()
    ensures program { ProgramRunsAreSystemRuns }
    ensures system { SystemRunsAreProgramRuns }
    ensures over { OverIsOver }
    ensures end { EndIsOver }
{
    a_step_leads_along_an_edge();
    active_frames_follow_the_call_path();
    graphs_are_expansions();
}

/// Any two outlines of a graph have the same ranks. So they are one, but for what nodes cost, names and notes.
pub fn a_graph_has_one_ranking()
    ensures ranks { HasOneRanking }
    ensures shape { HasOneShape }
{
    graphs_are_expansions();
    a_graph_has_one_outline();
}

/// Where each range has one number, the program has one start with inputs inside them.
pub fn a_lone_input_has_one_start()
    ensures { HasLoneStart }
{}
