//! The laws of abstract values.

ghost use Rattle.std.specs.Prelude.{ℕ, List, IsSome};
ghost use Rattle.std.specs.List.{AllZip};
ghost use Rattle.alf_ops.specs.declared.operator.Op.{Op};
ghost use Rattle.alf_ops.specs.declared.history.Value.{Value};
ghost use Rattle.alf_ops.specs.Table.{result_size, size_of_result, operand_sizes};
ghost use Rattle.alf_ops.specs.Pointers.{outcome};
ghost use Rattle.domain_core.specs.Orders.{IsOrder};
ghost use Rattle.pointer_rules.specs.AbstractValues.{AbstractValue, Covers, OnlyCovers, value_order, joined};
ghost use Rattle.pointer_rules.specs.Choices.{applied};
ghost use Rattle.pointer_rules.specs.Covering.{IsValue, IsOutcome, Tells, OnlyTells};

/// Abstract values are a lattice. The join of two of one size has this size, and where both have one
/// and the same member alone, so has the join.
pub fn abstract_values_are_a_lattice()
    ensures order { IsOrder AbstractValue value_order }
    ensures sized { (size : ℕ) (a b : AbstractValue) → IsValue size a → IsValue size b → IsValue size (joined a b) }
    ensures only { (size : ℕ) (a b : AbstractValue) (value : Value) → IsValue size a → IsValue size b
        → OnlyCovers a value → OnlyCovers b value → OnlyCovers (joined a b) value }
{}

/// What an operator gives at abstract values has the size of its result, and tells the outcome at each
/// choice of their members: the value is covered, or the fault told. Where each operand has one member
/// alone, it is exactly this value and no fault, or exactly this fault and no value.
pub fn operators_tell_each_outcome()
    ensures sized { (op : Op) (sizes : List ℕ) (args : List AbstractValue) → IsSome (result_size op sizes)
        → AllZip IsValue (operand_sizes op sizes) args
        → IsOutcome (size_of_result op sizes) (applied op sizes args) }
    ensures covering { (op : Op) (sizes : List ℕ) (args : List AbstractValue) (values : List Value)
        → IsSome (result_size op sizes) → AllZip IsValue (operand_sizes op sizes) args
        → AllZip Covers args values → Tells (applied op sizes args) (outcome op sizes values) }
    ensures sharp { (op : Op) (sizes : List ℕ) (args : List AbstractValue) (values : List Value)
        → IsSome (result_size op sizes) → AllZip IsValue (operand_sizes op sizes) args
        → AllZip OnlyCovers args values → OnlyTells (applied op sizes args) (outcome op sizes values) }
{}
