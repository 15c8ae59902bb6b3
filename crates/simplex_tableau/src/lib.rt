//! Tableaus of the dual simplex method by their terms: the first one, the choices of the rule, and the pivot.
//!
//! A line has the right side at place 0, the objective's scale at place 1, and the variables' numbers from place 2
//! on. It is kept as its numbers other than 0, each with its place, by ascending place. A tableau has its rows,
//! each with its basic place, and the objective. `first_tableau` makes that of a program's rows and their slacks,
//! and `started` makes the pivots of the opening. A pivot turns the row that leaves, and frees each other line of
//! the place that enters; it touches those lines alone that have the place. All of it is proved to be what
//! `simplex_rules` defines over whole lines, with its tests of 128 bits.
#![tactic(auto)]

// A line, and what is read from it.
mod line;
mod reading;

// What a pivot does with lines.
mod freeing;
mod turning;

// A line less another, and a line by its common divisor.
mod merging;
mod reducing;

// A row, and all rows but one, freed of a place.
mod row;
mod rows;

// The place that enters.
mod choice;
mod products;

// The tableau, its choices and its pivots.
mod choosing;
mod pivot;
mod tableau;

// The first tableau of a program, and its opening.
mod costs;
mod first;
mod lines;
mod opening;
mod places;

pub use choice::{first_number, from_place};
pub use first::first_tableau;
pub use line::Line;
pub use opening::started;
pub use row::HeldLine;
pub use tableau::SparseTableau;
