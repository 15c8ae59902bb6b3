//! What is true of every run, as clauses of functions that do nothing.

ghost use Rattle.alf_runs.specs.RunLaws.{AfterMore, StaysOver, HasOneEnd, EndsAtItsLength, EndsOrGoesOn};
ghost use Rattle.alf_runs.specs.LeadLaws.{StepsGoAlong, NodesLeadOn, StandsAtKeptNodes};
ghost use Rattle.alf_runs.specs.SizeLaws.{ValueHasSize, OperandsHaveSizes};
ghost use Rattle.alf_runs.specs.StoreLaws.{EntersByStores, ArgumentsFit, StartsByStores};
ghost use Rattle.alf_runs.specs.PlaceLaws.{StartIsPlace, StepKeepsPlace, EachPlace, NeverLost, InputsAreWords};

use alf_ops::{outcomes_have_their_size, sound_histories_give_values_that_fit};

/// A run has one continuation: t + u steps are t steps and then u, with their nodes in a row, and
/// what is over stays.
pub fn a_run_has_one_continuation()
    ensures more { AfterMore }
    ensures over { StaysOver }
{}

/// A run that ends has one list of nodes and one outcome. It has more nodes than a number exactly
/// where this number is below their count, and any run ends within a number of nodes or has more.
pub fn a_run_has_one_end()
    ensures one { HasOneEnd }
    ensures length { EndsAtItsLength }
    ensures within { EndsOrGoesOn }
{}

/// A step leads along an edge: to a node that an edge leads to, or where an edge leads to the end of
/// the program to the outputs. A fault takes no edge. So each node of a run leads to the next, and a
/// run stands at nodes of the graph alone.
pub fn a_step_leads_along_an_edge()
    ensures along { StepsGoAlong }
    ensures next { NodesLeadOn }
    ensures kept { StandsAtKeptNodes }
{}

/// The value of an expression has the size that the checks gave it, and so have those of operands.
pub fn values_have_their_size()
    ensures value { ValueHasSize }
    ensures operands { OperandsHaveSizes }
{
    outcomes_have_their_size();
    sound_histories_give_values_that_fit();
}

/// Wherever a run of a checked program stands, its path is one of calls, its block is there, the
/// active frames are the global ones and those of the functions on the path, and each value that was
/// stored has its size. No run is ever without a rule.
pub fn active_frames_follow_the_call_path()
    ensures start { StartIsPlace }
    ensures step { StepKeepsPlace }
    ensures each { EachPlace }
    ensures found { NeverLost }
    ensures inputs { InputsAreWords }
{
    outcomes_have_their_size();
    sound_histories_give_values_that_fit();
}

/// What is stored where a run starts and where a function is entered lies in frames that are active,
/// so that no such store has a fault.
pub fn starts_and_calls_store_without_a_fault()
    ensures calls { EntersByStores }
    ensures arguments { ArgumentsFit }
    ensures starts { StartsByStores }
{
    outcomes_have_their_size();
    sound_histories_give_values_that_fit();
}
