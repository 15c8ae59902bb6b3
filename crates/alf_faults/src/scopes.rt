//! What is looked up around an item.

use crate::label_table::Labels;
use crate::returns::FirstReturn;
use alf_program::{Func, Program};

/// A function of a program, and what its items are held against.
#[derive(Clone, Copy)]
pub struct Scope<'s, 'a> {
    pub program: &'a Program,
    /// The first return of each function of the program.
    pub returns: &'s [Option<FirstReturn>],
    pub func: &'a Func,
    /// The function's place.
    pub place: usize,
    /// The function's first return.
    pub first: Option<FirstReturn>,
    /// The labels of the function.
    pub labels: &'s Labels<'a>,
}
