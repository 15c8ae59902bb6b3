//! What the definitions promise, as clauses of functions that do nothing.

ghost use Rattle.cache_analysis.specs.Analyses.{HasOneAnalysis};
ghost use Rattle.cache_analysis.specs.SoundLaws.{SoundForSystemIsSound};

use alf_runs::{a_step_leads_along_an_edge, active_frames_follow_the_call_path};
use flow_graph::graphs_are_expansions;
use program_machines::a_graph_has_one_ranking;

/// A program has one analysis with a cache: with the same shape, costs and policy in so many turns one answer is found,
/// whatever parts the code has it in.
pub fn a_program_has_one_cache_analysis()
    ensures { HasOneAnalysis }
{
    a_graph_has_one_ranking();
}

/// Lines that are sound for the system of a program's machine, along an outline with the lines of the code, are sound
/// for the program.
pub fn sound_lines_are_sound_for_the_program()
    ensures { SoundForSystemIsSound }
{
    a_step_leads_along_an_edge();
    active_frames_follow_the_call_path();
    graphs_are_expansions();
}
