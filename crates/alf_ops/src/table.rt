//! The table of the operators' names.

ghost use Rattle.std.specs.Prelude.{◌≡◌, ◌≢◌, ◌↔◌, ◌<◌, map, All, AllPairs, IsNone, slice_get, Some};
ghost use Rattle.alf_ops.specs.Names.{operator_named, name_of, operators, spelling, TellsOperator};

use crate::operator::Op;

/// A row of the table.
#[derive(Clone, Copy, Debug)]
pub struct OpRow {
    pub op: Op,
    /// The word that stands for the operator.
    pub name: &'static str,
    /// How many sizes are written after it.
    pub sizes: u8,
    /// How many operands it has.
    pub operands: u8,
}

macro_rules! row {
    ($op:ident, $name:literal, $sizes:literal, $operands:literal) => {
        OpRow { op: Op::$op, name: $name, sizes: $sizes, operands: $operands }
    };
}

/// The operators, in the order of the table.
pub const OPS: [OpRow; 40] = [
    row!(Neg, "neg", 1, 1),
    row!(Not, "not", 1, 1),
    row!(Add, "add", 1, 3),
    row!(Sub, "sub", 1, 3),
    row!(CAdd, "c_add", 1, 3),
    row!(CSub, "c_sub", 1, 3),
    row!(UMul, "u_mul", 2, 2),
    row!(SMul, "s_mul", 2, 2),
    row!(UDiv, "u_div", 2, 2),
    row!(SDiv, "s_div", 2, 2),
    row!(UMod, "u_mod", 2, 2),
    row!(SMod, "s_mod", 2, 2),
    row!(LShift, "l_shift", 2, 2),
    row!(RShift, "r_shift", 2, 2),
    row!(RShiftA, "r_shift_a", 2, 2),
    row!(And, "and", 1, 2),
    row!(Or, "or", 1, 2),
    row!(Xor, "xor", 1, 2),
    row!(Eq, "eq", 1, 2),
    row!(Neq, "neq", 1, 2),
    row!(ULt, "u_lt", 1, 2),
    row!(ULe, "u_le", 1, 2),
    row!(UGt, "u_gt", 1, 2),
    row!(UGe, "u_ge", 1, 2),
    row!(SLt, "s_lt", 1, 2),
    row!(SLe, "s_le", 1, 2),
    row!(SGt, "s_gt", 1, 2),
    row!(SGe, "s_ge", 1, 2),
    row!(SExt, "s_ext", 2, 1),
    row!(ZExt, "z_ext", 2, 1),
    row!(Trunc, "trunc", 2, 1),
    row!(Select, "select", 3, 1),
    row!(Conc, "conc", 2, 2),
    row!(If, "if", 1, 3),
    row!(RotL, "rot_l", 2, 2),
    row!(RotR, "rot_r", 2, 2),
    row!(UMin, "u_min", 1, 2),
    row!(UMax, "u_max", 1, 2),
    row!(SMin, "s_min", 1, 2),
    row!(SMax, "s_max", 1, 2),
];

/// The operator of the first row of this name. Takes no memory.
pub fn find(rows: &[OpRow], name: &str) -> Option<Op>
    ensures first { result ≡ operator_named rows.now name.now }
    ensures none { IsNone result ↔ All (λ row. name_of row ≢ name.now) rows.now }
{
    rows.iter().find(|row| row.name == name).map(|row| row.op)
}

/// `OPS` with its facts: the 40 operators in their order, each with its name, and no two with one
/// name. A crate that needs these facts calls this, since a clause cannot name `OPS`.
pub fn rows() -> &'static [OpRow; 40]
    ensures order { map (λ row. row.op) result.now ≡ operators }
    ensures told { All TellsOperator result.now }
    ensures distinct { AllPairs (λ a b. a ≢ b) (map name_of result.now) }
    ensures found { (op : Op) → operator_named result.now (spelling op) ≡ Some op }
{
    &OPS
}

// The place of an operator's row.
fn place(op: Op) -> usize
    ensures row { slice_get operators result ≡ Some op }
    ensures within { result < 40 }
{
    op as usize
}

/// The word that stands for an operator. Takes no memory.
pub fn spelling(op: Op) -> &'static str
    ensures { result.now ≡ spelling op }
{
    rows()[place(op)].name
}
