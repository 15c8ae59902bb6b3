//! The first fault of names and sizes of a program of ALF, and where each of its names stands first.
//!
//! `first_fault` goes through a program in the order of its text and tells the first name that stands twice or
//! nowhere, or the first place that breaks a size rule. All faults of a program are defined as one list,
//! `faults_in`, and what is told is its head; `no_fault_is_by_parts` says, rule by rule, what holds where the list
//! is empty. `frame_named`, `function_named` and `Labels` tell where a name stands first.
//!
//! No pass is quadratic in the number of items, labels or targets: labels are looked up in a table, while frames
//! and functions, of which a program that is read has at most 256 each, are looked through from the front.
//! Programs are those of `alf_program`, and the sizes of operators those of `alf_ops`. Whether functions call one
//! another in a circle is not judged here.
#![tactic(auto)]

// Where names stand first: frames, functions and labels.
mod label_table;
mod places;

// What is found, and what is told of it.
mod findings;
mod item_faults;
mod item_places;

// Sizes of expressions and returns, and what is looked up around an item.
mod returns;
mod scopes;
mod term_sizes;

// The rules, by what they are on.
mod frame_faults;
mod repeated_names;
mod size_rules;
mod unknown_names;

// The walk through the text.
mod first_faults;
mod function_faults;

// What the definitions promise.
mod laws;

// Rows, worked out by hand.
mod worked;

pub use first_faults::first_fault;
pub use item_faults::ItemFault;
pub use label_table::Labels;
pub use laws::no_fault_is_by_parts;
pub use places::{frame_named, function_named};
pub use worked::{
    calls_and_returns_agree, faults_stand_in_the_order_of_the_text, sizes_are_those_of_the_rules,
};
