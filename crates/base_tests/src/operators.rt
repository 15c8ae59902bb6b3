//! Names and sizes of operators, their values at words, and what they make of pointers, by hand or by the rules' own
//! words.

use crate::tables::{hold, number, numbers, part, push_numbers};
use alf_ops::{
    OPS, Op, OpRow, RunFault, Value, apply, apply_to_values, find, fits, operand, rows, shape,
    spelling, values_fit,
};
use std::alloc::{AllocError, Global};
use std::test::Fail;

// Two rows of one name.
static TWICE: [OpRow; 2] = [
    OpRow {
        op: Op::Add,
        name: "plus",
        sizes: 1,
        operands: 3,
    },
    OpRow {
        op: Op::Sub,
        name: "plus",
        sizes: 1,
        operands: 3,
    },
];

/// What is told of names: the operator that each stands for.
pub fn names_told(alloc: Global, asked: &str) -> Result<String, AllocError> {
    let mut text = String::new(alloc);
    for name in asked.split(',') {
        let found = if name == "plus" {
            find(&TWICE, name)
        } else {
            find(&OPS, name)
        };
        text.push_str(match found {
            Some(op) => spelling(op),
            None => "none",
        })?;
        text.push(',')?;
    }
    Ok(text)
}

// Names, with a comma between two: those of all operators, some that none has, and one that two rows have.
static NAMES: &str = "\
3 names
neg,not,add,sub,c_add,c_sub,u_mul,s_mul,u_div,s_div,u_mod,s_mod,l_shift,r_shift,r_shift_a,and,or,xor,eq,\
neq,u_lt,u_le,u_gt,u_ge,s_lt,s_le,s_gt,s_ge,s_ext,z_ext,trunc,select,conc,if,rot_l,rot_r,u_min,u_max,\
s_min,s_max => \
neg,not,add,sub,c_add,c_sub,u_mul,s_mul,u_div,s_div,u_mod,s_mod,l_shift,r_shift,r_shift_a,and,or,xor,eq,\
neq,u_lt,u_le,u_gt,u_ge,s_lt,s_le,s_gt,s_ge,s_ext,z_ext,trunc,select,conc,if,rot_l,rot_r,u_min,u_max,\
s_min,s_max,
,nega,ne,NEG,u_lt ,rot => none,none,none,none,none,none,
plus => add,";

#[test]
fn a_name_stands_for_its_operator(rt: HostRuntime) -> Result<(), Fail> {
    hold(rt.alloc(), NAMES)
}

// The operator that a row begins with, and the sizes that stand behind it.
fn operator(row: &str) -> Option<Op> {
    find(rows(), part(row, " ", 0))
}

/// What is told of an operator with the sizes that are written: the size of its result, and of its operands.
pub fn shape_told(alloc: Global, asked: &str) -> Result<String, AllocError> {
    let Some(op) = operator(asked) else {
        return String::from_str(alloc, "no operator");
    };
    let sizes = numbers(alloc, asked)?;
    let mut text = match shape(op, &sizes) {
        Some(size) => format!(in alloc; "{size} |")?,
        None => String::from_str(alloc, "none")?,
    };
    for place in 0..4 {
        if let Some(size) = operand(op, &sizes, place) {
            push_numbers(&mut text, &[size])?;
        }
    }
    Ok(text)
}

static SHAPES: &str = "\
37 shape
u_mul 32 32 => 64 | 32 32
u_mul 40 40 => none
s_mul 64 1 => none
s_mul 63 1 => 64 | 63 1
conc 8 16 => 24 | 8 16
neg 1 => 1 | 1
neg 64 => 64 | 64
neg 0 => none
neg 65 => none
neg => none
neg 8 8 => none
add 32 => 32 | 32 32 1
c_sub 32 => 1 | 32 32 1
u_div 8 16 => 8 | 8 16
s_mod 8 16 => 16 | 8 16
s_mod 8 65 => none
l_shift 8 64 => 8 | 8 64
rot_r 31 7 => 31 | 31 7
xor 7 => 7 | 7 7
s_le 7 => 1 | 7 7
s_ext 8 32 => 32 | 8
s_ext 32 8 => none
z_ext 8 8 => 8 | 8
trunc 32 8 => 8 | 32
trunc 8 32 => none
select 32 8 15 => 8 | 32
select 32 15 8 => none
select 32 0 32 => none
select 32 0 31 => 32 | 32
select 32 0 => none
select 32 0 31 0 => none
if 16 => 16 | 1 16 16
u_min 8 => 8 | 8 8
u_max 8 8 => none
s_min 64 => 64 | 64 64
s_min 65 => none
s_max 1 => 1 | 1 1";

#[test]
fn each_operator_has_its_sizes(rt: HostRuntime) -> Result<(), Fail> {
    hold(rt.alloc(), SHAPES)
}

/// What is told of an operator with its sizes, and of words: the word that it gives.
pub fn word_told(alloc: Global, asked: &str) -> Result<String, AllocError> {
    let (row, words) = (part(asked, " | ", 0), part(asked, " | ", 1));
    let Some(op) = operator(row) else {
        return String::from_str(alloc, "no operator");
    };
    let sizes = numbers(alloc, row)?;
    let mut args = Vec::new(alloc);
    for word in words.split(' ') {
        args.push(word.parse::<u64>().unwrap_or(0))?;
    }
    if shape(op, &sizes).is_none() || !fits(op, &sizes, &args) {
        return String::from_str(alloc, "these are no operands");
    }
    match apply(op, &sizes, &args) {
        Ok(word) => format!(in alloc; "{word}"),
        Err(_) => String::from_str(alloc, "divide"),
    }
}

/// The value that a word writes: the frame and the offset of a pointer, with `+` between, or the size and the number of
/// a word, with `:` between.
pub fn value_of(word: &str) -> Value {
    if word.contains('+') {
        return Value::Ptr {
            frame: number(part(word, "+", 0)),
            offset: number(part(word, "+", 1)),
        };
    }
    Value::Int {
        size: number(part(word, ":", 0)),
        bits: part(word, ":", 1).parse::<u64>().unwrap_or(0),
    }
}

// The word of a fault.
fn fault_word(fault: RunFault) -> &'static str {
    match fault {
        RunFault::Divide => "divide",
        RunFault::Uninit => "uninit",
        RunFault::Mixed => "mixed",
        RunFault::Bounds => "bounds",
        RunFault::Dead => "dead",
        RunFault::Kind => "kind",
        RunFault::Pointers => "pointers",
    }
}

/// The value as it is written, or the word of the fault.
pub fn value_told(alloc: Global, value: Result<Value, RunFault>) -> Result<String, AllocError> {
    match value {
        Ok(Value::Ptr { frame, offset }) => format!(in alloc; "{frame}+{offset}"),
        Ok(Value::Int { size, bits }) => format!(in alloc; "{size}:{bits}"),
        Err(fault) => String::from_str(alloc, fault_word(fault)),
    }
}

/// What is told of an operator with its sizes, and of values: the value that it gives.
pub fn outcome_told(alloc: Global, asked: &str) -> Result<String, AllocError> {
    let (row, words) = (part(asked, " | ", 0), part(asked, " | ", 1));
    let Some(op) = operator(row) else {
        return String::from_str(alloc, "no operator");
    };
    let sizes = numbers(alloc, row)?;
    let mut values = Vec::new(alloc);
    for word in words.split(' ') {
        values.push(value_of(word))?;
    }
    if shape(op, &sizes).is_none() || !values_fit(op, &sizes, &values) {
        return String::from_str(alloc, "these are no operands");
    }
    value_told(alloc, apply_to_values(op, &sizes, &values))
}

// The pointers 2+8 and 2+12 point into one frame, and 3+8 into another one.
static POINTERS: &str = "\
45 outcome
add 32 | 2+8 32:4 1:0 => 2+12
add 32 | 32:4 2+8 1:0 => 2+12
add 32 | 2+8 2+12 1:0 => kind
sub 32 | 2+12 32:4 1:1 => 2+8
sub 32 | 2+12 2+8 1:1 => 32:4
sub 32 | 2+12 3+8 1:1 => pointers
sub 32 | 32:4 2+8 1:1 => kind
eq 32 | 2+8 2+8 => 1:1
eq 32 | 2+8 2+12 => 1:0
eq 32 | 2+8 3+8 => 1:0
neq 32 | 2+8 3+8 => 1:1
eq 32 | 2+8 32:0 => kind
u_lt 32 | 2+8 2+12 => 1:1
u_ge 32 | 2+8 3+8 => pointers
s_lt 32 | 2+8 2+12 => kind
u_div 32 32 | 2+8 32:0 => kind
u_div 32 32 | 32:4 32:0 => divide
if 32 | 1:1 2+8 32:4 => 2+8
if 32 | 1:0 2+8 32:4 => 32:4
neg 32 | 2+8 => kind
neg 32 | 32:0 => 32:0
eq 32 | 32:0 2+8 => kind
neq 32 | 2+8 2+8 => 1:0
neq 32 | 2+8 2+12 => 1:1
neq 32 | 2+8 32:0 => kind
neq 32 | 32:0 2+8 => kind
u_lt 32 | 2+12 2+8 => 1:0
u_lt 32 | 2+8 32:4 => kind
u_lt 32 | 32:4 2+8 => kind
u_lt 32 | 2+8 3+8 => pointers
u_le 32 | 2+8 2+8 => 1:1
u_le 32 | 2+8 32:4 => kind
u_le 32 | 32:4 2+8 => kind
u_gt 32 | 2+12 2+8 => 1:1
u_gt 32 | 2+8 32:4 => kind
u_gt 32 | 32:4 2+8 => kind
u_ge 32 | 2+8 2+12 => 1:0
u_ge 32 | 2+8 32:4 => kind
u_ge 32 | 32:4 2+8 => kind
u_min 32 | 2+8 2+12 => kind
u_max 32 | 2+8 32:4 => kind
s_min 32 | 32:4 2+8 => kind
s_max 32 | 2+8 2+8 => kind
if 32 | 1:1 32:4 2+8 => 32:4
if 32 | 1:0 32:4 2+8 => 2+8";

#[test]
fn pointers_follow_their_rules(rt: HostRuntime) -> Result<(), Fail> {
    hold(rt.alloc(), POINTERS)
}
