//! What is true of the points of runs, as clauses of functions that do nothing.

ghost use Rattle.transfer_rules.specs.PointLaws.{GoesAlong, EndsAlong, RunIsRun, HasOneWay};
ghost use Rattle.transfer_rules.specs.TraceLaws.{TraceIsTrace};

use alf_runs::{a_step_leads_along_an_edge, active_frames_follow_the_call_path};
use flow_graph::graphs_are_expansions;

/// Each next point of a run lies along an edge of the graph, and so does each end.
pub fn points_go_along_edges()
    ensures goes { GoesAlong }
    ensures ends { EndsAlong }
{
    a_step_leads_along_an_edge();
    active_frames_follow_the_call_path();
    graphs_are_expansions();
}

/// Each run of the program from a start inside the ranges is a run of its system, and its nodes are
/// those of the program's run, by their numbers.
pub fn runs_are_runs_of_points()
    ensures run { RunIsRun }
    ensures trace { TraceIsTrace }
{
    a_step_leads_along_an_edge();
    active_frames_follow_the_call_path();
    graphs_are_expansions();
}

/// Each point has one next point, or it is an end, or it has one fault.
pub fn a_point_has_one_way()
    ensures { HasOneWay }
{
    a_step_leads_along_an_edge();
    active_frames_follow_the_call_path();
    graphs_are_expansions();
}
