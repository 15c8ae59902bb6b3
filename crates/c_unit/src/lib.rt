//! Units of C as trees over tokens, and their canonical text.
//!
//! A unit has its tokens, as ranges of the text, and trees over them. Where a part of a tree is a token, it is the
//! number of the token, from 0 on in the order of the text. What of this some text spells is said by the grammar
//! (`c_grammar`).
//!
//! `print` writes the canonical text of a unit: its tokens in order, each as it was spelled, with one space
//! between two of them and one line feed at the end. Tokens are those of `c_tokens`.
#![tactic(auto)]

// Trees.
mod expression;
mod external;
mod statement;
mod types;

// Tokens, units, and their limits.
mod limits;
mod tokens;
mod unit;

// The canonical text.
mod printing;

// Rows, worked out by hand.
mod worked;

pub use expression::{Binary, Expr, Unary};
pub use external::{Declarator, External, Parameter, Shape};
pub use limits::{MOST_ELEMENTS, MOST_FRAMES, MOST_FUNCTIONS};
pub use printing::print;
pub use statement::{Call, Effect, Local, LocalShape, Stmt, Value};
pub use tokens::{Span, range};
pub use types::{Constant, Integer, Outcome, Scalar};
pub use unit::CUnit;
pub use worked::{operators_are_nested_in_one_another, tokens_stand_at_their_places};
