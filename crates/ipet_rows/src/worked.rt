//! Rows of small outlines, worked out apart from the definitions.

ghost use Rattle.std.specs.Prelude.{◌≡◌, ◌+◌, [], ◌∷◌, Some, None, pos, negsuc, true, false};
ghost use Rattle.ipet_rows.specs.Duals.{column_sum, dual_sum};
ghost use Rattle.ipet_rows.specs.Firsts.{entry, first, fits};
ghost use Rattle.ipet_rows.specs.Fractions.{part_of, whole_of};
ghost use Rattle.ipet_rows.specs.Programs.{cost_at, row_at, no_row};
ghost use Rattle.ipet_rows.specs.Sums.{coefficient, total, value_at};
ghost use Rattle.ipet_rows.specs.Worked.{EntryAndBlock, LoopOfTen, LoopOfSome, FaultColumnLast, PairOfLoop};
ghost use Rattle.ipet_rows.specs.Worked.{two_rows, two_terms};

/// An entry and a block, a loop of ten turns with a count, one of up to ten, alarms and a pair have these rows
/// and columns.
pub fn small_outlines_have_their_rows()
    ensures block { EntryAndBlock }
    ensures turns { LoopOfTen }
    ensures ends { LoopOfSome }
    ensures fault { FaultColumnLast }
    ensures pair { PairOfLoop }
{}

/// Terms and multipliers are added up place by place, and what is past the last is 0; fractions are brought to
/// the product of their denominators.
pub fn small_sums_come_out()
    ensures total { total 3 (λ k. pos (k + 1)) ≡ pos 6 }
    ensures value { value_at two_terms (λ e. pos (e + 1)) ≡ pos 11 }
    ensures has { coefficient two_terms 2 ≡ pos 3 }
    ensures lacks { coefficient two_terms 1 ≡ pos 0 }
    ensures right { dual_sum two_rows (negsuc 1 ∷ pos 5 ∷ []) ≡ pos 29 }
    ensures column { column_sum two_rows (negsuc 1 ∷ pos 5 ∷ []) 1 ≡ pos 22 }
    ensures whole { whole_of ((pos 1, pos 2) ∷ (pos 2, pos 3) ∷ []) ≡ pos 6 }
    ensures half { part_of ((pos 1, pos 2) ∷ (pos 2, pos 3) ∷ []) 0 ≡ pos 3 }
    ensures two_thirds { part_of ((pos 1, pos 2) ∷ (pos 2, pos 3) ∷ []) 1 ≡ pos 4 }
    ensures cost { cost_at two_rows.costs 1 ≡ 6 }
    ensures past { row_at two_rows.rows 2 ≡ no_row }
    ensures absent { entry (pos 4 ∷ []) 1 ≡ pos 0 }
{}

/// A number is wide from 2 to 127 on, and below the negative of that; of several answers the first counts.
pub fn numbers_have_128_bits()
    ensures greatest { fits (pos 170141183460469231731687303715884105727) ≡ true }
    ensures past { fits (pos 170141183460469231731687303715884105728) ≡ false }
    ensures least { fits (negsuc 170141183460469231731687303715884105727) ≡ true }
    ensures below { fits (negsuc 170141183460469231731687303715884105728) ≡ false }
    ensures earliest { first 3 (λ k. Some k) ≡ Some 0 }
{}
