//! What the definitions promise, as clauses of functions that do nothing.

ghost use Rattle.program_analysis.specs.AnalysisLaws.{PartsHaveOneAnalysis, StaysFound, PartsHaveOneEventList};
ghost use Rattle.program_analysis.specs.AnalysisLaws.{HasOneAlike};
ghost use Rattle.program_analysis.specs.BoundedAnalyses.{HasOneBoundedAnalysis, StaysBounded, HasOnePrintedReport};
ghost use Rattle.program_analysis.specs.BoundedAnalyses.{StaysPrinted};
ghost use Rattle.program_analysis.specs.BoundedSound.{FoundReportsAreRight, ClosedExplorationsHaveTotals};
ghost use Rattle.program_analysis.specs.BoundedSound.{LoneBoundsAgree};
ghost use Rattle.program_analysis.specs.ExactLaws.{LoneInputIsToldExactly};
ghost use Rattle.program_analysis.specs.Fitting.{PartsFit};
ghost use Rattle.program_analysis.specs.LoneAnalyses.{LoneAnalysisIsExact};
ghost use Rattle.program_analysis.specs.ProgramAnalyses.{HasOneAnalysis, HasOneEventList, StaysAnalysed};
ghost use Rattle.program_analysis.specs.SoundLaws.{SoundForSystemIsSound};

use alf_runs::{
    a_run_has_one_end, a_step_leads_along_an_edge, active_frames_follow_the_call_path,
    starts_and_calls_store_without_a_fault, values_have_their_size,
};
use flow_graph::graphs_are_expansions;
use path_lp::told_bounds_are_right;
use program_machines::a_graph_has_one_ranking;

/// The parts of a program have one analysis: along outlines of one shape, with the same names and costs, a policy finds
/// one answer in so many turns, and a report is found in each number of turns that is not below the steps of its
/// exploration, which has one list of events whatever the turns. Outlines of one graph with the same names and costs
/// are alike.
pub fn parts_have_one_analysis()
    ensures one { PartsHaveOneAnalysis }
    ensures longer { StaysFound }
    ensures events { PartsHaveOneEventList }
    ensures alike { HasOneAlike }
{
    a_graph_has_one_ranking();
}

/// A program has one analysis, whatever parts the code has it in, and a report is found in each number of turns that is
/// not below the steps of its exploration, which has one list of events whatever the turns. Outlines of one graph with
/// the same names and costs are alike.
pub fn a_program_has_one_analysis()
    ensures one { HasOneAnalysis }
    ensures longer { StaysAnalysed }
    ensures events { HasOneEventList }
    ensures alike { HasOneAlike }
{
    parts_have_one_analysis();
}

/// A program has one answer with a path bound, and a report is found in each number of turns that is not below the
/// steps of its exploration. So it is of the report as it is printed, with a certificate or without: each such number
/// of turns gives the same events and multipliers.
pub fn a_program_has_one_bounded_analysis()
    ensures one { HasOneBoundedAnalysis }
    ensures longer { StaysBounded }
    ensures printed { HasOnePrintedReport }
    ensures printed_longer { StaysPrinted }
{
    a_program_has_one_analysis();
}

/// Where each range has one number, the parts of a program have one run, and an analysis tells exactly it. A report
/// comes exactly where the run has at most as many nodes as the turns: totals, loops, counts, dead nodes and pairs are
/// the run's own, the only alarm is its fault, and the count bound is its cost. Else the scope is that of the node that
/// comes after so many.
pub fn parts_alone_are_told_exactly()
    ensures { LoneInputIsToldExactly }
{
    a_run_has_one_end();
}

/// Where each range has one number, the program has one run, and an analysis tells exactly it.
pub fn an_input_alone_is_told_exactly()
    ensures { LoneAnalysisIsExact }
{
    parts_fit();
    parts_alone_are_told_exactly();
}

/// A report that is sound for the system of a program's machine is sound for the program: each run of the program
/// ends, meets each fact, faults only where an alarm says so, and costs at most the count bound.
pub fn sound_reports_are_sound_for_the_program()
    ensures { SoundForSystemIsSound }
{
    a_step_leads_along_an_edge();
    active_frames_follow_the_call_path();
    graphs_are_expansions();
}

// The parts of a checked program, its graph, rows that keep the rules and the graph's outline fit.
pub(crate) fn parts_fit()
    ensures { PartsFit }
{
    a_step_leads_along_an_edge();
    active_frames_follow_the_call_path();
    graphs_are_expansions();
    starts_and_calls_store_without_a_fault();
    values_have_their_size();
}

/// A report that is found is sound for the program: each run from inputs inside the ranges ends, meets each fact,
/// faults only where an alarm says so, and costs at most the count bound and at most the path bound. The path bound is
/// at most the count bound, and with `Least` it is the greatest worth of a point that meets the report's rows, rounded
/// down.
pub fn found_reports_are_right()
    ensures { FoundReportsAreRight }
{
    parts_fit();
    told_bounds_are_right();
}

/// An exploration that leaves no place collected some total of each node that it stepped: so a check of its report has
/// nothing to say of totals.
pub fn closed_explorations_have_totals()
    ensures { ClosedExplorationsHaveTotals }
{
    parts_fit();
}

/// Where each range has one number, the path bound of a report is its count bound, and so the run's cost.
pub fn bounds_of_an_input_alone_agree()
    ensures { LoneBoundsAgree }
{
    parts_fit();
    told_bounds_are_right();
}
