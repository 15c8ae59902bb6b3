//! What an exploration collected, as far as a report tells it.
//!
//! `FourRecorders` are the recorders of totals, loops, counts and pairs side by side. `gathered` takes from a pool
//! their books, and for each node the faults told there and whether it was stepped. From this a report is told, and a
//! report of unknown origin is checked.
#![tactic(auto)]

// What was collected.
mod collected;

// How it is taken from a pool.
mod gathering;

pub use collected::{Collected, FourRecorders};
pub use gathering::gathered;
