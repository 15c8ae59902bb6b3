//! What operators give at pieces of two operands.

ghost use Rattle.std.specs.Prelude.{◌≤◌, ◌^◌, pos, neg_ℤ, ◌≤ℤ◌};
ghost use Rattle.progressions.specs.Images.{products as products_of};
ghost use Rattle.progressions.specs.Parts.{IsPiece};
ghost use Rattle.strided_rules.specs.Rules.{above as above_of, ratios as ratios_of, lesser as lesser_of};
ghost use Rattle.strided_rules.specs.Rules.{greater as greater_of};
ghost use Rattle.strided_operators.specs.Limits.{IsHalf};

use crate::over::PairRule;
use progressions::Progression;
use whole_numbers::Whole;

/// Quotients rounded down, of numbers from 0 on, the ends of the divisor raised to 1.
#[derive(Clone, Copy, Drop)]
pub struct Ratios;

impl PairRule for Ratios {
    ghost gives_both = { λ _ p q. ratios_of p q };

    ghost takes_both = { λ _ p q. IsPiece (pos 0) (pos (2 ^ 64)) p × IsPiece (pos 0) (pos (2 ^ 64)) q };

    #[tactic(auto, unfolding(strided_rules::specs::Rules::ratios))]
    fn at_both(&self, p: &Progression, q: &Progression) -> Progression {
        let one = Whole::of(1);
        let (most, least) = (q.hi.greatest(one), q.lo.greatest(one));
        Progression::from_to(p.lo.quotient(most), p.hi.quotient(least), one)
    }
}

/// The lesser of two numbers.
#[derive(Clone, Copy, Drop)]
pub struct Lesser;

impl PairRule for Lesser {
    ghost gives_both = { λ _ p q. lesser_of p q };

    ghost takes_both = { λ _ p q. IsPiece (neg_ℤ (pos (2 ^ 64))) (pos (2 ^ 64)) p × IsPiece (neg_ℤ (pos (2 ^ 64))) (pos (2 ^ 64)) q };

    #[tactic(auto, unfolding(strided_rules::specs::Rules::lesser))]
    fn at_both(&self, p: &Progression, q: &Progression) -> Progression {
        Progression::from_to(p.lo.least(q.lo), p.hi.least(q.hi), Whole::of(1))
    }
}

/// The greater of two numbers.
#[derive(Clone, Copy, Drop)]
pub struct Greater;

impl PairRule for Greater {
    ghost gives_both = { λ _ p q. greater_of p q };

    ghost takes_both = { λ _ p q. IsPiece (neg_ℤ (pos (2 ^ 64))) (pos (2 ^ 64)) p × IsPiece (neg_ℤ (pos (2 ^ 64))) (pos (2 ^ 64)) q };

    #[tactic(auto, unfolding(strided_rules::specs::Rules::greater))]
    fn at_both(&self, p: &Progression, q: &Progression) -> Progression {
        Progression::from_to(p.lo.greatest(q.lo), p.hi.greatest(q.hi), Whole::of(1))
    }
}

/// Products of two numbers.
#[derive(Clone, Copy, Drop)]
pub struct Products;

impl PairRule for Products {
    ghost gives_both = { λ _ p q. products_of p q };

    ghost takes_both = { λ _ p q. IsHalf p × IsHalf q };

    fn at_both(&self, p: &Progression, q: &Progression) -> Progression {
        p.products(q)
    }
}

/// Numbers of the first above those of the second, which are below `unit`.
#[derive(Clone, Copy, Drop)]
pub struct Above {
    pub unit: Whole,
    ghost rising: { pos 0 ≤ℤ unit },
    ghost small: { unit ≤ℤ pos (2 ^ 63) },
}

impl PairRule for Above {
    ghost gives_both = { λ r p q. above_of r.unit p q };

    ghost takes_both = { λ _ p q. IsHalf p × IsHalf q };

    #[tactic(auto, unfolding(strided_rules::specs::Rules::above))]
    fn at_both(&self, p: &Progression, q: &Progression) -> Progression {
        let step = (p.step * self.unit).common_divisor(q.step);
        Progression::from_to(p.lo * self.unit + q.lo, p.hi * self.unit + q.hi, step)
    }
}
