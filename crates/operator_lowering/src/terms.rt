//! Numbers, addresses, and operators over operands.

ghost use Rattle.std.specs.Prelude.{◌≡◌, [], ◌∷◌, map, IfOk, if◌then◌else◌};
ghost use Rattle.alf_program.specs.Tree.{expression_of, Address, Load};
ghost use Rattle.alf_ops.specs.declared.operator.Op.TheVariants.{Neg};
ghost use Rattle.c_lowered.specs.Values as values;

use alf_ops::Op;
use alf_program::{Expr, Num, Sizes};
use c_tokens::Worth;
use flow_base::Name;
use std::alloc::{AllocError, Global};

// A constant of 32 bits, with a sign or without one.
fn constant(signed: bool, number: u32) -> Expr
    ensures { expression_of result ≡ values.constant signed number }
{
    Expr::Num(Num {
        signed,
        size: 32,
        bits: u64::from(number),
    })
}

/// A constant with a sign.
pub fn whole(number: u32) -> Expr
    ensures { expression_of result ≡ values.whole number }
{
    constant(true, number)
}

/// The bit 0, or the bit 1.
pub fn bit(one: bool) -> Expr
    ensures { expression_of result ≡ values.bit (if one then 1 else 0) }
{
    Expr::Num(Num {
        signed: false,
        size: 1,
        bits: if one { 1 } else { 0 },
    })
}

/// A constant with the sign of its type.
pub fn constant_of(worth: Worth) -> Expr
    ensures { expression_of result ≡ values.constant_of worth }
{
    match worth {
        Worth::NoConstant => whole(0),
        Worth::TooLarge => whole(0),
        Worth::Int(number) => constant(true, number),
        Worth::UnsignedInt(number) => constant(false, number),
    }
}

/// The address of a byte of the frame of this name.
pub fn address(alloc: Global, frame: &[u8], offset: u32) -> Result<Expr, AllocError>
    ensures { IfOk result (λ e. expression_of e ≡ Address frame.now offset) }
{
    let name = Name::new(alloc, frame)?;
    Ok(Expr::Addr(name, offset))
}

/// A load of so many bits.
pub fn load(alloc: Global, bits: u32, at: Expr) -> Result<Expr, AllocError>
    ensures { IfOk result (λ e. expression_of e ≡ Load bits (expression_of at)) }
{
    let at = Box::new(alloc, at)?;
    Ok(Expr::Load(bits, at))
}

// One size, and two.
fn one_size(size: u32) -> Sizes
    ensures { result.items ≡ size ∷ [] }
{
    let mut sizes = Sizes::new();
    sizes.push(size);
    sizes
}

fn two_sizes(first: u32, second: u32) -> Sizes
    ensures { result.items ≡ first ∷ second ∷ [] }
{
    let mut sizes = one_size(first);
    sizes.push(second);
    sizes
}

// One operand, and two.
fn one_operand(alloc: Global, operand: Expr) -> Result<Vec<Expr>, AllocError>
    ensures { IfOk result (λ operands. map expression_of operands.items ≡ expression_of operand ∷ []) }
{
    let mut operands = Vec::with_capacity(alloc, 1)?;
    operands.push(operand)?;
    Ok(operands)
}

fn two_operands(alloc: Global, left: Expr, right: Expr) -> Result<Vec<Expr>, AllocError>
    ensures { IfOk result
        (λ operands. map expression_of operands.items ≡ expression_of left ∷ expression_of right ∷ []) }
{
    let mut operands = Vec::with_capacity(alloc, 2)?;
    operands.push(left)?;
    operands.push(right)?;
    Ok(operands)
}

fn three_operands(
    alloc: Global,
    left: Expr,
    right: Expr,
    carry: Expr,
) -> Result<Vec<Expr>, AllocError>
    ensures { IfOk result
        (λ operands. map expression_of operands.items
        ≡ expression_of left ∷ expression_of right ∷ expression_of carry ∷ []) }
{
    let mut operands = Vec::with_capacity(alloc, 3)?;
    operands.push(left)?;
    operands.push(right)?;
    operands.push(carry)?;
    Ok(operands)
}

/// An operator of the size 32 over one operand.
pub fn of_one(alloc: Global, op: Op, operand: Expr) -> Result<Expr, AllocError>
    ensures { IfOk result (λ e. expression_of e ≡ values.of_one op values.size (expression_of operand)) }
{
    let operands = one_operand(alloc, operand)?;
    Ok(Expr::Apply(op, one_size(32), operands))
}

/// An operator that makes so many bits of so many.
pub fn converted(
    alloc: Global,
    op: Op,
    from: u32,
    to: u32,
    operand: Expr,
) -> Result<Expr, AllocError>
    ensures { IfOk result (λ e. expression_of e ≡ values.of_one op (from ∷ to ∷ []) (expression_of operand)) }
{
    let operands = one_operand(alloc, operand)?;
    Ok(Expr::Apply(op, two_sizes(from, to), operands))
}

/// An operator of the size 32 over two operands.
pub fn of_two(alloc: Global, op: Op, left: Expr, right: Expr) -> Result<Expr, AllocError>
    ensures { IfOk result
        (λ e. expression_of e ≡ values.of_two op values.size (expression_of left) (expression_of right)) }
{
    let operands = two_operands(alloc, left, right)?;
    Ok(Expr::Apply(op, one_size(32), operands))
}

/// An operator of the sizes 32 and 32.
pub fn of_pair(alloc: Global, op: Op, left: Expr, right: Expr) -> Result<Expr, AllocError>
    ensures { IfOk result
        (λ e. expression_of e ≡ values.of_two op values.sizes (expression_of left) (expression_of right)) }
{
    let operands = two_operands(alloc, left, right)?;
    Ok(Expr::Apply(op, two_sizes(32, 32), operands))
}

/// An operator of the size 32 over two operands and a bit.
pub fn with_carry(
    alloc: Global,
    op: Op,
    left: Expr,
    right: Expr,
    carry: bool,
) -> Result<Expr, AllocError>
    ensures { IfOk result
        (λ e. expression_of e
        ≡ values.of_three op values.size (expression_of left) (expression_of right)
        (values.bit (if carry then 1 else 0))) }
{
    let operands = three_operands(alloc, left, right, bit(carry))?;
    Ok(Expr::Apply(op, one_size(32), operands))
}

/// The opposite number.
pub fn negated(alloc: Global, operand: Expr) -> Result<Expr, AllocError>
    ensures { IfOk result (λ e. expression_of e ≡ values.of_one Neg values.size (expression_of operand)) }
{
    of_one(alloc, Op::Neg, operand)
}
