//! What is true of runs of items, as clauses of functions that do nothing.

ghost use Rattle.item_runs.specs.Following.{RunsFollowItems};
ghost use Rattle.item_runs.specs.CheckedItems.{EachIsCut, EachFollowsItems};

use crate::alf_item_laws::{blocks_do_what_their_items_do, stretches_go_to_named_labels};
use alf_faults::no_fault_is_by_parts;
use alf_runs::a_run_has_one_continuation;

/// Where blocks do what items do and labels that are named stand, a run by nodes that is over has the
/// outcome of the run of items, after at least as many steps as that has stretches; and where the run of
/// items is over, so is that by nodes.
pub fn runs_follow_items()
    ensures { RunsFollowItems }
{
    stretches_go_to_named_labels();
    a_run_has_one_continuation();
}

/// In each checked program blocks do what items do and labels that are named stand. So each run of a
/// checked program that is over has the outcome of its items, and the other way round.
pub fn checked_programs_follow_their_items()
    ensures cut { EachIsCut }
    ensures follow { EachFollowsItems }
{
    no_fault_is_by_parts();
    blocks_do_what_their_items_do();
    runs_follow_items();
}
