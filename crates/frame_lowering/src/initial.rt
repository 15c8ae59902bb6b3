//! What globals hold at first.

ghost use Rattle.std.specs.Prelude.{◌≡◌, ◌≤◌, ◌+◌, [], ◌∷◌, ◌++◌, map, IfOk, OnOk};
ghost use Rattle.alf_ops.specs.TwosComplement.{word};
ghost use Rattle.alf_program.specs.Tree.{initial_of};
ghost use Rattle.c_unit.specs.Limits.{most_elements};
ghost use Rattle.c_unit.specs.Tree.{declarator_of, shape_of, external_of};
ghost use Rattle.c_unit.specs.Units.{unit_of};
ghost use Rattle.c_rules.specs.Units as checks;
ghost use Rattle.c_rules.specs.SpelledUnits.{elements_of_shape, elements_of_declarators, all_elements_of};
ghost use Rattle.c_meaning.specs.Values as sizes;
ghost use Rattle.c_meaning.specs.Objects as meaning;
ghost use Rattle.c_meaning.specs.Statements as statements;
ghost use Rattle.c_lowered.specs.Frames as laws;
ghost use Rattle.object_layout.specs.Views.{program_in};

use alf_program::{Init, Num};
use c_scopes::Words;
use c_tokens::Worth;
use c_unit::{Constant, Declarator, External, Integer, Outcome, Shape};
use flow_base::Name;
use object_layout::{Table, count_at};
use operator_lowering::{bits_of_type, bytes_of_type, is_signed};
use std::alloc::{AllocError, Global};

// The type of a global, or of the elements of one.
fn element_of(given: Outcome) -> Integer
    ensures { result ≡ checks.element_of given }
{
    match given {
        Outcome::Nothing => Integer::Int,
        Outcome::Integer(kind) => kind,
    }
}

// The number of a constant, with its minus.
fn constant_number(words: &Words<'_>, constant: Constant) -> i64
    ensures { result ≡ statements.constant_number words.now constant }
{
    let number = match words.worth_at(constant.token) {
        Worth::NoConstant => 0,
        Worth::TooLarge => 0,
        Worth::Int(number) => number,
        Worth::UnsignedInt(number) => number,
    };
    if constant.minus {
        -i64::from(number)
    } else {
        i64::from(number)
    }
}

// A number, as a word of the type's size.
fn word_of(kind: Integer, number: i64) -> u64
    ensures { result ≡ word (sizes.bits_of_type kind) number }
{
    match kind {
        Integer::Char => number.rem_euclid(256).unsigned_abs(),
        Integer::UnsignedChar => number.rem_euclid(256).unsigned_abs(),
        Integer::Short => number.rem_euclid(65536).unsigned_abs(),
        Integer::UnsignedShort => number.rem_euclid(65536).unsigned_abs(),
        Integer::Int => number.rem_euclid(4294967296).unsigned_abs(),
        Integer::UnsignedInt => number.rem_euclid(4294967296).unsigned_abs(),
    }
}

// A word, as a number of the type.
fn number_of_type(kind: Integer, bits: u64) -> Num
    ensures { result ≡ laws.number_of_type kind bits }
{
    Num {
        signed: is_signed(kind),
        size: bits_of_type(kind),
        bits,
    }
}

// A constant, as an object of the type has it.
fn constant_num(table: &Table<'_>, kind: Integer, constant: Constant) -> Num
    ensures { result ≡ laws.constant_num (program_in table.now) kind constant }
{
    let number = constant_number(table.words(), constant);
    number_of_type(kind, word_of(kind, number))
}

// The first of the constants, or 0.
fn first_num(table: &Table<'_>, kind: Integer, constants: &[Constant]) -> Num
    ensures { result ≡ laws.first_num (program_in table.now) kind constants.now }
{
    match constants.split_first() {
        Some((constant, _)) => constant_num(table, kind, *constant),
        None => number_of_type(kind, 0),
    }
}

// The constants after the first.
fn further_elements(constants: &[Constant]) -> &[Constant]
    ensures { result.now ≡ statements.further_elements constants.now }
{
    match constants.split_first() {
        Some((_, others)) => others,
        None => constants,
    }
}

// The offset of the next element.
#[tactic(auto, using(crate::proofs::Elements::bytes_few))]
fn after(offset: u32, kind: Integer) -> u32
    requires room { offset ≤ 32768 }
    ensures next { result ≡ offset + sizes.bytes_of_type kind }
    ensures within { result ≤ offset + 4 }
{
    offset + bytes_of_type(kind)
}

// Puts what the element at an offset holds, which is the first of the constants, or 0.
fn put_element(
    alloc: Global,
    table: &Table<'_>,
    inits: &mut Vec<Init>,
    name: &[u8],
    kind: Integer,
    offset: u32,
    constants: &[Constant],
) -> Result<(), AllocError>
    ensures { OnOk result
        (map initial_of inits.new.items
        ≡ map initial_of inits.old.items
        ++ record { name = name.now; offset = offset; num = laws.first_num (program_in table.now) kind constants.now }
        ∷ []) }
{
    let num = first_num(table, kind, constants);
    let name = Name::new(alloc, name)?;
    inits.push(Init { name, offset, num })?;
    Ok(())
}

// Puts what so many elements of a frame hold.
#[tactic(auto, using(crate::proofs::Elements::next_word))]
fn put_elements(
    alloc: Global,
    table: &Table<'_>,
    inits: &mut Vec<Init>,
    name: &[u8],
    kind: Integer,
    count: u32,
    constants: &[Constant],
) -> Result<(), AllocError>
    requires few { count ≤ most_elements }
    ensures { OnOk result
        (map initial_of inits.new.items
        ≡ map initial_of inits.old.items
        ++ laws.element_words (program_in table.now) name.now kind 0 count constants.now) }
{
    let mut left = count;
    let mut offset: u32 = 0;
    let mut rest = constants;
    'elements: while left > 0 {
        put_element(alloc, table, inits, name, kind, offset, rest)?;
        offset = after(offset, kind);
        rest = further_elements(rest);
        left -= 1;
    }
    Ok(())
}

// Puts what a global holds.
fn put_shape(
    alloc: Global,
    table: &Table<'_>,
    inits: &mut Vec<Init>,
    name: &[u8],
    kind: Integer,
    shape: &Shape,
) -> Result<(), AllocError>
    requires few { elements_of_shape (unit_of table.now).words (shape_of shape.now) ≤ most_elements }
    ensures { OnOk result
        (map initial_of inits.new.items
        ≡ map initial_of inits.old.items
        ++ laws.shape_words (program_in table.now) name.now kind (shape_of shape.now)) }
{
    match shape {
        Shape::Integer(first) => {
            let num = match first {
                Some(constant) => constant_num(table, kind, *constant),
                None => number_of_type(kind, 0),
            };
            let name = Name::new(alloc, name)?;
            inits.push(Init {
                name,
                offset: 0,
                num,
            })?;
            Ok(())
        }
        Shape::Array(size, firsts) => {
            let count = count_at(table.words(), *size);
            match firsts {
                Some(constants) => put_elements(alloc, table, inits, name, kind, count, constants),
                None => put_elements(alloc, table, inits, name, kind, count, &[]),
            }
        }
        Shape::Function(_) => Ok(()),
    }
}

// Puts what the globals hold that are declared together.
fn put_declarators(
    alloc: Global,
    table: &Table<'_>,
    inits: &mut Vec<Init>,
    kind: Integer,
    declarators: &[Declarator],
) -> Result<(), AllocError>
    requires few { elements_of_declarators (unit_of table.now).words (map declarator_of declarators.now)
        ≤ most_elements }
    ensures { OnOk result
        (map initial_of inits.new.items
        ≡ map initial_of inits.old.items
        ++ laws.declarators_words (program_in table.now) kind (map declarator_of declarators.now)) }
{
    let mut rest = declarators;
    'declarators: while let Some((declarator, others)) = rest.split_first() {
        let name = table.frame_of(declarator.name);
        put_shape(alloc, table, inits, name, kind, &declarator.shape)?;
        rest = others;
    }
    Ok(())
}

/// What the globals hold at first, in order.
pub fn initial_values(
    alloc: Global,
    table: &Table<'_>,
    externals: &[External],
) -> Result<Vec<Init>, AllocError>
    requires few { all_elements_of (unit_of table.now).words (map external_of externals.now) ≤ most_elements }
    ensures { IfOk result
        (λ inits. map initial_of inits.items
        ≡ laws.first_words (program_in table.now) (map external_of externals.now)) }
{
    let mut inits = Vec::new(alloc);
    let mut rest = externals;
    'externals: while let Some((external, others)) = rest.split_first() {
        match external {
            External::Declare(_, given, declarators) => {
                put_declarators(alloc, table, &mut inits, element_of(*given), declarators)?;
            }
            External::Define(_, _, _, _, _) => {}
        }
        rest = others;
    }
    Ok(inits)
}
