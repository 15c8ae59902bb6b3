//! The one way in which an operator fails.

use thiserror::Error;

/// The divisor is 0.
#[derive(Clone, Copy, Debug, PartialEq, Eq, Error)]
#[error("division by 0")]
pub struct Divide;
