//! Searches of a small table, worked out apart from the definitions.

ghost use Rattle.std.specs.Prelude.{◌∷◌, [], pos, neg_ℤ, true, false};
ghost use Rattle.worst_inputs.specs.Boxes.{Splits};
ghost use Rattle.worst_inputs.specs.Searches.{IsSearched, IsLeftIn};
ghost use Rattle.worst_inputs.specs.Worked.{two, told, boxes_of_1, boxes_of_2, boxes_of_3, one_row, told_of_one};

/// Two rows are searched, 0 to 5 and -4 to 1. The first split is of the first row at 2, since both are as wide; the
/// second is of the box of bound 90, of its second row at -2, which is the wider; and the third is of the first of two
/// boxes of bound 50. The lower half stands first, in the place of the box.
pub fn boxes_are_split_in_their_order()
    ensures first { Splits told (two (pos 0) (pos 5) (neg_ℤ (pos 4)) (pos 1)) 1 boxes_of_1 }
    ensures second { Splits told (two (pos 0) (pos 5) (neg_ℤ (pos 4)) (pos 1)) 2 boxes_of_2 }
    ensures third { Splits told (two (pos 0) (pos 5) (neg_ℤ (pos 4)) (pos 1)) 3 boxes_of_3 }
{}

/// A search ends after its splits, or before them where a point has the greatest bound, which is exact then. Where a
/// half has no bound, its place is told.
pub fn searches_end_where_a_point_is_worst()
    ensures all_made { IsSearched told (two (pos 0) (pos 5) (neg_ℤ (pos 4)) (pos 1)) 2
        (record { boxes = boxes_of_2; exact = false }) }
    ensures point { IsSearched told_of_one (one_row (pos 0) (pos 1)) 5 (record {
      boxes = record { area = one_row (pos 0) (pos 0); bound = 5 }
          ∷ record { area = one_row (pos 1) (pos 1); bound = 9 } ∷ [];
      exact = true;
    }) }
    ensures left { IsLeftIn told_of_one (one_row (pos 4) (pos 7)) 5 3 }
{}
