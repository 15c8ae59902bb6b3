//! Strided values: sets of words by a progression of whole numbers.
//!
//! Each call gives exactly what the rule in `strided_rules` says. No call takes memory, and none can
//! fail. `Flat`, one word or every word, is handed on.
#![tactic(auto)]

// The values, their members, and what is kept of them.
mod kept;
mod member;
mod relation;
mod turns;
mod value;

// What operators give at values.
mod choices;
mod comparisons;
mod conjunctions;
mod images;
mod pairs;
mod parts;
mod products;
mod quotients;
mod rests;
mod shifts;
mod sums;

// What the traits ask for.
mod dispatch;
mod domain;
mod lattice;

pub use flat_domain::Flat;
pub use value::Strided;
