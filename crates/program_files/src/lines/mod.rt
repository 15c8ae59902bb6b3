//! The lines of refusals.

mod check_lines;
mod fault_lines;
mod refusal_lines;
mod unit_lines;

pub use check_lines::{check_line, check_why, graph_line, number_or_dash, push_quoted};
pub use fault_lines::{fault_line, limit_line};
pub use refusal_lines::{refusal_line, refusal_why};
pub use unit_lines::unit_line;
