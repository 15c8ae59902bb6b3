//! Sketches of programs: statements that end with `;`, of words.
//!
//! `export x`, `lref f`, `global x 32` and `start x 3 8` stand before the functions. After `func f`
//! stand `arg a 32`, `decl b 8`, `hold b 0 8` and the items: `label A`, `null`, `store &x sum`,
//! `jump A`, `switch *x A 32:7:B` with the default before the targets, `call f *x`, `into x f *x` with
//! the result's frame, and `return` with or without an expression. `&x` is an address, `*x` a load of
//! 32 bits, `16` a number of 16 bits, and `sum` a sum that fits.

use alf_ops::Op;
use alf_program::{Alloc, Expr, Func, Init, Item, Num, Program, Sizes, Stmt};
use flow_base::Name;
use std::alloc::{AllocError, Global};
use std::str::SplitWhitespace;

/// The program of the sketch.
pub fn program(alloc: Global, sketch: &str) -> Result<Program, AllocError> {
    let mut program = Program {
        exports: Vec::new(alloc),
        labels: Vec::new(alloc),
        decls: Vec::new(alloc),
        inits: Vec::new(alloc),
        funcs: Vec::new(alloc),
    };
    for line in sketch.split(';') {
        let mut words = line.split_whitespace();
        let kind = word(&mut words);
        if kind == "export" {
            program.exports.push(name(alloc, &mut words)?)?;
        } else if kind == "lref" {
            program.labels.push(name(alloc, &mut words)?)?;
        } else if kind == "global" {
            program.decls.push(frame(alloc, &mut words)?)?;
        } else if kind == "start" {
            program.inits.push(start(alloc, &mut words)?)?;
        } else if kind == "func" {
            program.funcs.push(func(alloc, &mut words)?)?;
        } else if let Some(last) = program.funcs.last_mut() {
            put(alloc, last, kind, &mut words)?;
        }
    }
    Ok(program)
}

// One more argument, declaration, number that is held, or item.
fn put(
    alloc: Global,
    func: &mut Func,
    kind: &str,
    words: &mut SplitWhitespace,
) -> Result<(), AllocError> {
    if kind == "arg" {
        func.args.push(frame(alloc, words)?)?;
    } else if kind == "decl" {
        func.decls.push(frame(alloc, words)?)?;
    } else if kind == "hold" {
        func.inits.push(start(alloc, words)?)?;
    } else if kind == "label" {
        func.items.push(Item::Label(name(alloc, words)?))?;
    } else {
        func.items.push(Item::Stmt(stmt(alloc, kind, words)?))?;
    }
    Ok(())
}

fn stmt(alloc: Global, kind: &str, words: &mut SplitWhitespace) -> Result<Stmt, AllocError> {
    if kind == "store" {
        Ok(Stmt::Store(expr(alloc, word(words))?, expr(alloc, word(words))?))
    } else if kind == "jump" {
        Ok(Stmt::Jump(name(alloc, words)?))
    } else if kind == "switch" {
        let value = expr(alloc, word(words))?;
        let others = name(alloc, words)?;
        Ok(Stmt::Switch(value, targets(alloc, words)?, others))
    } else if kind == "call" {
        Ok(Stmt::Call(name(alloc, words)?, exprs(alloc, words)?, None))
    } else if kind == "into" {
        let frame = name(alloc, words)?;
        Ok(Stmt::Call(name(alloc, words)?, exprs(alloc, words)?, Some((frame, 0))))
    } else if kind == "return" {
        Ok(Stmt::Return(exprs(alloc, words)?.pop()))
    } else {
        Ok(Stmt::Null)
    }
}

fn func(alloc: Global, words: &mut SplitWhitespace) -> Result<Func, AllocError> {
    Ok(Func {
        name: name(alloc, words)?,
        args: Vec::new(alloc),
        decls: Vec::new(alloc),
        inits: Vec::new(alloc),
        items: Vec::new(alloc),
    })
}

fn word<'a>(words: &mut SplitWhitespace<'a>) -> &'a str {
    words.next().unwrap_or("")
}

fn name(alloc: Global, words: &mut SplitWhitespace) -> Result<Name, AllocError> {
    Name::new(alloc, word(words).as_bytes())
}

fn number(text: &str) -> u32 {
    text.parse::<u32>().unwrap_or(0)
}

fn frame(alloc: Global, words: &mut SplitWhitespace) -> Result<Alloc, AllocError> {
    Ok(Alloc {
        name: name(alloc, words)?,
        bits: number(word(words)),
    })
}

fn start(alloc: Global, words: &mut SplitWhitespace) -> Result<Init, AllocError> {
    let name = name(alloc, words)?;
    let offset = number(word(words));
    Ok(Init {
        name,
        offset,
        num: zero(number(word(words))),
    })
}

fn zero(size: u32) -> Num {
    Num {
        signed: false,
        size,
        bits: 0,
    }
}

fn targets(alloc: Global, words: &mut SplitWhitespace) -> Result<Vec<(Num, Name)>, AllocError> {
    let mut targets = Vec::new(alloc);
    for text in words {
        targets.push(target(alloc, text)?)?;
    }
    Ok(targets)
}

fn target(alloc: Global, text: &str) -> Result<(Num, Name), AllocError> {
    let (size, rest) = text.split_once(':').unwrap_or(("", ""));
    let (bits, label) = rest.split_once(':').unwrap_or(("", ""));
    let num = Num {
        signed: false,
        size: number(size),
        bits: u64::from(number(bits)),
    };
    Ok((num, Name::new(alloc, label.as_bytes())?))
}

fn exprs(alloc: Global, words: &mut SplitWhitespace) -> Result<Vec<Expr>, AllocError> {
    let mut exprs = Vec::new(alloc);
    for text in words {
        exprs.push(expr(alloc, text)?)?;
    }
    Ok(exprs)
}

fn expr(alloc: Global, text: &str) -> Result<Expr, AllocError> {
    if let Some(frame) = text.strip_prefix('&') {
        Ok(Expr::Addr(Name::new(alloc, frame.as_bytes())?, 0))
    } else if let Some(frame) = text.strip_prefix('*') {
        let at = Expr::Addr(Name::new(alloc, frame.as_bytes())?, 0);
        Ok(Expr::Load(32, Box::new(alloc, at)?))
    } else if text == "sum" {
        sum(alloc, 32, 1)
    } else if text == "short" {
        sum(alloc, 16, 1)
    } else if text == "carry" {
        sum(alloc, 32, 32)
    } else if text == "wild" {
        Ok(Expr::Load(32, Box::new(alloc, Expr::Num(zero(16)))?))
    } else {
        Ok(Expr::Num(zero(number(text))))
    }
}

// A sum of 32 bits whose second operand and whose carry have these sizes.
fn sum(alloc: Global, second: u32, carry: u32) -> Result<Expr, AllocError> {
    let mut sizes = Sizes::new();
    sizes.push(32);
    let mut operands = Vec::new(alloc);
    for size in [32, second, carry] {
        operands.push(Expr::Num(zero(size)))?;
    }
    Ok(Expr::Apply(Op::Add, sizes, operands))
}
