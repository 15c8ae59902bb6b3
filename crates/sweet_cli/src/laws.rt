//! What the definitions promise, as functions that do nothing when they are called.

ghost use Rattle.std.specs.Prelude.{◌≡◌, Some, None, codes, option_map};
ghost use Rattle.sweet_words.specs.Merges.{merging_or_joins};
ghost use Rattle.worklist_rules.specs.declared.policy.Policy.TheVariants as policies;
ghost use Rattle.sweet_cli.specs.Analyse.{policy_of};
ghost use Rattle.sweet_cli.specs.Exact.{OneInputIsToldExactly, OneInputIsAnsweredExactly};
ghost use Rattle.sweet_cli.specs.Laws.{HaveOneAnswer, ReportsStay, OwnReportsAreAccepted, RunsOfCHaveTheirOwnOutcome};
ghost use Rattle.sweet_cli.specs.Laws.{MigratedReportsSayTheSame};

use command_files::a_file_means_its_report;
use cost_table::a_file_has_one_answer;
use fact_text::writable_reports_are_spelled;
use program_analysis::{
    a_program_has_one_bounded_analysis, an_input_alone_is_told_exactly,
    bounds_of_an_input_alone_agree, closed_explorations_have_totals,
};
use program_checks::a_report_has_one_check;
use scope_graph::a_graph_has_one_outline;

/// Told files have one answer to the words, but for a line that gives one example of several, and the
/// same names are read, whatever was read before, where no read fails. Does nothing when it is called.
pub fn one_answer()
    ensures { HaveOneAnswer }
{}

/// A report that `analyse` prints is printed with each number of turns that is not below the steps of its
/// exploration. Does nothing when it is called.
pub fn reports_stay()
    ensures { ReportsStay }
{
    a_program_has_one_bounded_analysis();
}

/// A text of at most 67,108,864 bytes that the words of `analyse --cert` print of told files is accepted by the
/// words of `check` with the same names and the same root, where a told file holds it and the files of these names
/// hold what they held. Does nothing when it is called.
pub fn own_reports_are_accepted()
    ensures { OwnReportsAreAccepted }
{
    a_report_has_one_check();
    closed_explorations_have_totals();
    a_file_means_its_report();
    writable_reports_are_spelled();
}

/// A report and the same in the second form are sound for the same programs, inputs and costs, and `check` answers
/// both alike. Does nothing when it is called.
pub fn a_migrated_report_says_the_same()
    ensures { MigratedReportsSayTheSame }
{}

/// Where each range has one number, what `analyse` tells is exactly the one run: totals, dead nodes, loops,
/// counts and pairs are the run's own, the only alarm is its fault, and both bounds are its cost. Places
/// are left exactly where the run has more nodes than the turns. So the words of `analyse` end over told files, but
/// for a failed read. Does nothing when it is called.
pub fn one_input_is_told_exactly()
    ensures programs { OneInputIsToldExactly }
    ensures files { OneInputIsAnsweredExactly }
{
    a_graph_has_one_outline();
    an_input_alone_is_told_exactly();
    bounds_of_an_input_alone_agree();
}

/// Where a told file of C gives the program and a told file of inputs its rows, the run from each list of
/// numbers inside the ranges of these rows has the outcome of the unit from the cells that hold these very
/// numbers, and no other cells hold them. Does nothing when it is called.
pub fn each_run_of_c_has_the_outcome_from_its_own_cells()
    ensures { RunsOfCHaveTheirOwnOutcome }
{
    a_file_has_one_answer();
}

/// States are merged nowhere after `none`, where a scope is left after `exits`, and everywhere after `joins`, and as
/// well where no word is given. Does nothing when it is called.
pub fn merges_have_their_policies()
    ensures none { option_map policy_of (merging_or_joins (Some (codes "none"))) ≡ Some policies.None }
    ensures exits { option_map policy_of (merging_or_joins (Some (codes "exits"))) ≡ Some policies.Exits }
    ensures joins { option_map policy_of (merging_or_joins (Some (codes "joins"))) ≡ Some policies.Joins }
    ensures absent { option_map policy_of (merging_or_joins None) ≡ Some policies.Joins }
    ensures other { option_map policy_of (merging_or_joins (Some (codes "never"))) ≡ None }
{}
