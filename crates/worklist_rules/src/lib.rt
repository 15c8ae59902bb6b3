//! Pools of places, the events that move them on, and what follows of the runs of a concrete system.
//!
//! A place has a position, which says where it stands in the iterations of the scopes around its node. An event
//! steps a place, or joins two of one position; a policy says which event is next. Whatever the events, no run is
//! lost, and where a system has one start the pool is exactly where its run is. The laws hold for every `Stepper`
//! and every `Recorder` of `domain_core`. All of this is definitions and laws but the enum `Policy`; the code that
//! explores by them is `abstract_exec`.
#![tactic(auto)]

// Where places may be merged.
mod policy;

// What the definitions promise.
mod laws;

// Rows, worked out by hand.
mod worked;

pub use laws::{
    a_pool_has_one_policy_run, a_sharp_pool_follows_its_run, each_is_summed,
    each_run_is_waited_for_or_over,
};
pub use policy::Policy;
pub use worked::positions_go_from_the_outermost_scope;
