//! Words whose lowest bits alone are set.

ghost use Rattle.std.specs.Prelude.{◌≡◌, ◌≤◌, IfSome};
ghost use Rattle.strided_rules.specs.Operators.{mask_size as mask_size_of};

use crate::placing::power;
use whole_numbers::Whole;

/// The bits up to the size with the word 2 to them less 1.
#[tactic(auto, using(crate::proofs::MaskSizes::mask_zero, crate::proofs::MaskSizes::mask_none, crate::proofs::MaskSizes::mask_here, crate::proofs::MaskSizes::mask_lower))]
pub fn mask_size(size: u32, word: u64) -> Option<u32>
    requires { size ≤ 64 }
    ensures value { result ≡ mask_size_of size word }
    ensures most { IfSome result (λ bits. bits ≤ size) }
{
    if size == 0 {
        if word == 0 { Some(0) } else { None }
    } else if (Whole::of_word(word) + Whole::of(1)).equals(power(size)) {
        Some(size)
    } else {
        mask_size(size - 1, word)
    }
}
