//! The place that enters: of those with a number below 0 the one of least ratio.

ghost use Rattle.std.specs.Prelude.{◌≡◌, None};
ghost use Rattle.simplex_tableau.specs.Choosing.{chosen_with, lesser, dropped, number_first, choose};

use crate::products::turned_product;
use std::marker::Model;
use whole_numbers::Whole;

/// A place, the row's number there and the objective's.
#[derive(Clone, Copy, Drop)]
pub struct Candidate {
    place: u32,
    low: Whole,
    cost: Whole,
}

impl Model for Candidate {
    ghost use Rattle.simplex_tableau.specs.Choosing.{Chosen};

    ghost Value = { Chosen };

    ghost view = { λ s. record { place = s.place; low = s.low; cost = s.cost } };

    ghost inverse = { λ c. record { place = c.place; low = c.low; cost = c.cost } };
}

impl Candidate {
    /// Its place.
    pub fn place(&self) -> u32
        ensures { result ≡ self.now.place }
    {
        self.place
    }
}

/// The one of lesser ratio, and of equal ones the first. `None` where a product is wide.
fn lesser_of(held: Candidate, next: Candidate) -> Option<Option<Candidate>>
    ensures { result ≡ lesser held next }
{
    let Some(mine) = turned_product(next.cost, held.low) else {
        return None;
    };
    let Some(other) = turned_product(held.cost, next.low) else {
        return None;
    };
    if mine.below(other) {
        Some(Some(next))
    } else {
        Some(Some(held))
    }
}

/// The best so far with one more. `None` where a product is wide.
fn better(best: Option<Candidate>, next: Candidate) -> Option<Option<Candidate>>
    ensures { result ≡ chosen_with best next }
{
    if !next.low.below(Whole::of(0)) {
        return Some(best);
    }
    match best {
        None => Some(Some(next)),
        Some(held) => lesser_of(held, next),
    }
}

/// The terms from the place on.
pub fn from_place(terms: &[(u32, Whole)], place: u32) -> &[(u32, Whole)]
    ensures { result.now ≡ dropped place terms.now }
{
    let mut rest = terms;
    while let Some((term, others)) = rest.split_first() {
        if place <= term.0 {
            return rest;
        }
        rest = others;
    }
    rest
}

/// The number of the first term, if it is at the place.
pub fn first_number(terms: &[(u32, Whole)], place: u32) -> Whole
    ensures { result ≡ number_first terms.now place }
{
    match terms.split_first() {
        None => Whole::of(0),
        Some((term, _)) => {
            if term.0 == place {
                term.1
            } else {
                Whole::of(0)
            }
        }
    }
}

/// The best of the row's terms, by the objective's numbers. `None` where a product is wide.
pub fn chosen(row: &[(u32, Whole)], objective: &[(u32, Whole)]) -> Option<Option<Candidate>>
    ensures { result ≡ choose None row.now objective.now }
{
    let mut best = None;
    let mut rest = row;
    let mut costs = objective;
    while let Some((term, others)) = rest.split_first() {
        costs = from_place(costs, term.0);
        let next = Candidate {
            place: term.0,
            low: term.1,
            cost: first_number(costs, term.0),
        };
        let Some(more) = better(best, next) else {
            return None;
        };
        best = more;
        rest = others;
    }
    Some(best)
}
