//! What follows of events, as clauses of functions that do nothing.

ghost use Rattle.std.specs.Prelude.{◌≡◌, ◌≤◌, ℕ, List, [], Option};
ghost use Rattle.domain_core.specs.declared.event.Event.{Event};
ghost use Rattle.domain_core.specs.Outlines.{Outlined, shape_of};
ghost use Rattle.domain_core.specs.Machines.{IsAlong};
ghost use Rattle.domain_core.specs.Recordings.{IsSuited};
ghost use Rattle.worklist_rules.specs.Pools.{Pooled};
ghost use Rattle.worklist_rules.specs.Events.{opened, HappenAll};
ghost use Rattle.worklist_rules.specs.Policies.{IsPolicyRun};
ghost use Rattle.domain_core.specs.SystemRuns.{IsRun};
ghost use Rattle.worklist_rules.specs.Kept.{IsKept};
ghost use Rattle.worklist_rules.specs.Runs.{EachRun, EachRunIsOver};
ghost use Rattle.worklist_rules.specs.EndedRuns.{EachIsSummed};
ghost use Rattle.worklist_rules.specs.Sharp.{IsSharp};

use crate::Policy;
use domain_core::{Recorder, Stepper};

/// Whatever the stepper, the recorder and the events: each run has a moment at which some place
/// stands at its node with its iteration numbers and covers its value and its trace so far, or it is
/// over, the book covers its trace, and its fault was told. Where no place is left, it is over.
pub fn each_run_is_waited_for_or_over<S: Stepper, R: Recorder>()
    ensures waited { (stepper : S) (o : Outlined) (events : List Event) (w : Pooled S S.State R R.Book)
        → (S.machine stepper).kept → IsSuited R.recording o
        → IsAlong S.State S.Concrete (shape_of o) (S.machine stepper)
        → HappenAll S.machine S.State.order R.order R.recording (opened S.machine R.recording stepper o) events w
        → EachRun S.machine R.recording w }
    ensures over { (stepper : S) (o : Outlined) (events : List Event) (w : Pooled S S.State R R.Book)
        → (S.machine stepper).kept → IsSuited R.recording o
        → IsAlong S.State S.Concrete (shape_of o) (S.machine stepper)
        → HappenAll S.machine S.State.order R.order R.recording (opened S.machine R.recording stepper o) events w
        → w.spots ≡ [] → EachRunIsOver S.machine R.recording w }
{}

/// Whatever the stepper and the recorder: where no place is left, each run of the stepper's system ends;
/// and of each run that ends the book sums the trace up, its nodes were stepped, and its fault was told at
/// its last node. `kept` says so of each pool that keeps what pools keep, and `events` of each pool that
/// events led to from its start.
pub fn each_is_summed<S: Stepper, R: Recorder>()
    ensures kept { (w : Pooled S S.State R R.Book) → IsKept S.machine R.recording w → w.spots ≡ []
        → EachIsSummed S.machine R.recording w }
    ensures events { (stepper : S) (o : Outlined) (events : List Event) (w : Pooled S S.State R R.Book)
        → (S.machine stepper).kept → IsSuited R.recording o
        → IsAlong S.State S.Concrete (shape_of o) (S.machine stepper)
        → HappenAll S.machine S.State.order R.order R.recording (opened S.machine R.recording stepper o) events w
        → w.spots ≡ [] → EachIsSummed S.machine R.recording w }
{}

/// Where a system has one start, each event leaves the pool exactly where the run is, or the run is
/// over and exactly its own numbers and fault were collected.
pub fn a_sharp_pool_follows_its_run<S: Stepper, R: Recorder>()
    ensures { (stepper : S) (o : Outlined) (events : List Event) (w : Pooled S S.State R R.Book)
        (run : ℕ → Option (ℕ × S.Concrete)) → (S.machine stepper).kept → IsSuited R.recording o
        → IsAlong S.State S.Concrete (shape_of o) (S.machine stepper) → IsRun (S.machine stepper).system run
        → ((c d : S.Concrete) → (S.machine stepper).system.starts c → (S.machine stepper).system.starts d → d ≡ c)
        → HappenAll S.machine S.State.order R.order R.recording (opened S.machine R.recording stepper o) events w
        → IsSharp (S.machine stepper) R.recording w run }
{}

/// A pool has one run of a policy, whose events happen one after another, and whose steps are at most
/// the turns. Where it leaves no place, each number of turns that is not below its steps gives the same
/// run.
pub fn a_pool_has_one_policy_run<S: Stepper, R: Recorder>(policy: Policy)
    ensures one { (turns : ℕ) (old new other : Pooled S S.State R R.Book) (events others : List Event)
        → IsPolicyRun S.machine S.State.order R.order R.recording policy turns old events new
        → IsPolicyRun S.machine S.State.order R.order R.recording policy turns old others other
        → (events ≡ others) × (new ≡ other) }
    ensures happens { (turns : ℕ) (old new : Pooled S S.State R R.Book) (events : List Event)
        → IsPolicyRun S.machine S.State.order R.order R.recording policy turns old events new
        → HappenAll S.machine S.State.order R.order R.recording old events new }
    ensures within { (turns : ℕ) (old new : Pooled S S.State R R.Book) (events : List Event) → old.steps ≤ turns
        → IsPolicyRun S.machine S.State.order R.order R.recording policy turns old events new → new.steps ≤ turns }
    ensures longer { (turns more : ℕ) (old new : Pooled S S.State R R.Book) (events : List Event) → new.steps ≤ more
        → IsPolicyRun S.machine S.State.order R.order R.recording policy turns old events new → new.spots ≡ []
        → IsPolicyRun S.machine S.State.order R.order R.recording policy more old events new }
{
    // The law has a policy, which no code asks for.
    let _ = policy;
}
