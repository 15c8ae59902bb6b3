//! What a switch's expression may tell of memory.

ghost use Rattle.std.specs.Prelude.{◌≡◌};

use domain_core::Rel;
use interval_congruence::Strided;
use std::marker::Model;

/// A cell that a load reads, the size of the load, and whether its word is extended.
#[derive(Clone, Copy, Drop)]
pub(crate) struct Place {
    pub cell: (u32, u32),
    pub size: u32,
    pub extended: bool,
}

/// An expression: its words, where it has no pointer, and the place that it is.
#[derive(Clone, Copy, Drop)]
pub(crate) struct Side {
    pub words: Option<Strided>,
    pub place: Option<Place>,
}

/// What a switch's expression tells, for all its arms.
#[derive(Clone, Copy, Drop)]
pub(crate) enum Refinement {
    /// Nothing: the expression is no place and no comparison.
    Nothing,
    /// The expression is a place, which has the words of the arm.
    At(Place),
    /// The relation holds between the sides where the arm has the bit 1.
    Between(Rel, Side, Side),
}

/// What was told, to be lent to each arm.
#[derive(Drop)]
pub(crate) struct Told {
    refinement: Refinement,
}

impl Model for Told {
    ghost use Rattle.branch_refinement.specs.declared.refinements.Refinement.{Refinement as SeenRefinement};

    ghost Value = { SeenRefinement };

    ghost view = { λ told. told.refinement };
}

impl Told {
    /// To be lent.
    pub(crate) fn of(refinement: Refinement) -> Told
        ensures { result ≡ refinement }
    {
        Told { refinement }
    }

    /// What was told.
    pub(crate) fn refinement(&self) -> Refinement
        ensures { result ≡ self.now }
    {
        self.refinement
    }
}
