//! Abstract values: words of one size, and pointers by frame.
//!
//! Each call gives exactly what the rules of `pointer_rules` say, whose laws hold of it. A value of words
//! alone takes no memory.
#![tactic(auto)]

// The values.
mod part;
mod places;
mod same;
mod value;

// What operators give at them.
mod apply;
mod choice;
mod choices;
mod rules;
mod words;

pub use value::AVal;
