//! Joins of a value with itself.

ghost use Rattle.std.specs.Prelude.{◌≡◌};
ghost use Rattle.strided_rules.specs.Strides.{Stride, IsStride, joined as joined_words};
ghost use Rattle.pointer_rules.specs.AbstractValues.{AbstractValue, IsAbstract, joined};

/// The join of a value with itself is the value.
pub fn a_join_with_itself_changes_nothing()
    ensures words { (x : Stride) → IsStride x → joined_words x x ≡ x }
    ensures values { (v : AbstractValue) → IsAbstract v → joined v v ≡ v }
{}
