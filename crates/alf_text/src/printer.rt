//! The canonical text of a program.

ghost use Rattle.std.specs.Prelude.{◌≡◌, map, OnOk, IfOk, codes};
ghost use Rattle.std.specs.List.{flat_map};
ghost use Rattle.std.specs.Option.{option_map};
ghost use Rattle.alf_text.specs.Printing.{all_put};
ghost use Rattle.alf_program.specs.Tree.{expression_of, expressions_of, statement_of, item_of, allocation_of};
ghost use Rattle.alf_program.specs.Tree.{initial_of, function_of, program_of, Load, Apply, Null, Store, Jump, Switch};
ghost use Rattle.alf_program.specs.Tree.{Call, Return};
ghost use Rattle.alf_text.specs.Canonical.{a_number, listed, if_any, address_marks, term_marks, target_marks};
ghost use Rattle.alf_text.specs.Canonical.{default_marks, act_marks, entry_marks, frame_marks, place_marks};
ghost use Rattle.alf_text.specs.Canonical.{start_marks, starts_marks, scope_marks, function_marks, refs_marks};
ghost use Rattle.alf_text.specs.Canonical.{names_marks, unit_marks, head_marks, globals_marks, parts_marks, body_marks};
ghost use Rattle.alf_text.specs.Canonical.{canonical_text};

use crate::canonical_tokens::{
    close, open, put_address, put_dec_unsigned, put_label, put_name, put_num, put_number, put_ref,
    put_word,
};
use alf_ops::{Op, spelling};
use alf_program::{Alloc, Expr, Func, Init, Item, Num, Program, Stmt};
use flow_base::Name;
use std::alloc::{AllocError, Global};

// ---- expressions

#[cycle(put_expr)]
fn put_expr(out: &mut Vec<u8>, expr: &Expr) -> Result<(), AllocError>
    ensures { OnOk result (out.new.items ≡ all_put out.old.items (term_marks (expression_of expr.now))) }
{
    match expr {
        Expr::Num(num) => put_num(out, num),
        Expr::Addr(frame, offset) => put_address(out, frame, *offset),
        Expr::Load(size, at) => put_load(out, *size, at),
        Expr::Apply(op, sizes, operands) => put_apply(out, *op, sizes, operands),
    }
}

#[cycle(put_expr)]
fn put_load(out: &mut Vec<u8>, size: u32, at: &Expr) -> Result<(), AllocError>
    ensures { OnOk result (out.new.items ≡ all_put out.old.items (term_marks (Load size (expression_of at.now)))) }
{
    open(out, b' ', b"load")?;
    put_number(out, size as u64)?;
    put_expr(out, at)?;
    close(out)?;
    Ok(())
}

#[cycle(put_expr)]
#[tactic(auto, using(crate::proofs::TextPrinting::printing))]
fn put_apply(out: &mut Vec<u8>, op: Op, sizes: &[u32], operands: &[Expr]) -> Result<(), AllocError>
    ensures { OnOk result
        (out.new.items
        ≡ all_put out.old.items (term_marks (Apply op sizes.now (expressions_of (map expression_of operands.now))))) }
{
    open(out, b' ', spelling(op).as_bytes())?;
    put_sizes(out, sizes)?;
    put_exprs(out, operands)?;
    close(out)?;
    Ok(())
}

#[cycle(put_expr)]
fn put_exprs(out: &mut Vec<u8>, exprs: &[Expr]) -> Result<(), AllocError>
    ensures { OnOk result (out.new.items ≡ all_put out.old.items (flat_map term_marks (map expression_of exprs.now))) }
{
    for expr in exprs {
        put_expr(out, expr)?;
    }
    Ok(())
}

fn put_sizes(out: &mut Vec<u8>, sizes: &[u32]) -> Result<(), AllocError>
    ensures { OnOk result (out.new.items ≡ all_put out.old.items (map a_number sizes.now)) }
{
    for size in sizes {
        put_number(out, *size as u64)?;
    }
    Ok(())
}

// ---- statements

fn put_target(out: &mut Vec<u8>, num: &Num, label: &Name) -> Result<(), AllocError>
    ensures { OnOk result (out.new.items ≡ all_put out.old.items (target_marks (num.now, label.now))) }
{
    open(out, b' ', b"target")?;
    put_num(out, num)?;
    put_label(out, b' ', label)?;
    close(out)?;
    Ok(())
}

fn put_targets(out: &mut Vec<u8>, targets: &[(Num, Name)]) -> Result<(), AllocError>
    ensures { OnOk result (out.new.items ≡ all_put out.old.items (flat_map target_marks targets.now)) }
{
    for (num, label) in targets {
        put_target(out, num, label)?;
    }
    Ok(())
}

fn put_store(out: &mut Vec<u8>, at: &Expr, value: &Expr) -> Result<(), AllocError>
    ensures { OnOk result
        (out.new.items ≡ all_put out.old.items (act_marks (Store (expression_of at.now) (expression_of value.now)))) }
{
    open(out, b'\n', b"store")?;
    put_expr(out, at)?;
    put_word(out, b"with")?;
    put_expr(out, value)?;
    close(out)?;
    Ok(())
}

fn put_jump(out: &mut Vec<u8>, label: &Name) -> Result<(), AllocError>
    ensures { OnOk result (out.new.items ≡ all_put out.old.items (act_marks (Jump label.now))) }
{
    open(out, b'\n', b"jump")?;
    put_label(out, b' ', label)?;
    put_word(out, b"leaving")?;
    put_number(out, 0)?;
    close(out)?;
    Ok(())
}

fn put_default(out: &mut Vec<u8>, label: &Name) -> Result<(), AllocError>
    ensures { OnOk result (out.new.items ≡ all_put out.old.items (default_marks label.now)) }
{
    open(out, b' ', b"default")?;
    put_label(out, b' ', label)?;
    close(out)?;
    Ok(())
}

fn put_switch(
    out: &mut Vec<u8>,
    value: &Expr,
    targets: &[(Num, Name)],
    others: &Name,
) -> Result<(), AllocError>
    ensures { OnOk result
        (out.new.items ≡ all_put out.old.items (act_marks (Switch (expression_of value.now) targets.now others.now))) }
{
    open(out, b'\n', b"switch")?;
    put_expr(out, value)?;
    put_targets(out, targets)?;
    put_default(out, others)?;
    close(out)?;
    Ok(())
}

fn put_result(out: &mut Vec<u8>, result_at: &Option<(Name, u32)>) -> Result<(), AllocError>
    ensures { OnOk result (out.new.items ≡ all_put out.old.items (if_any address_marks result_at.now)) }
{
    match result_at {
        Some((frame, offset)) => put_address(out, frame, *offset),
        None => Ok(()),
    }
}

fn put_call(
    out: &mut Vec<u8>,
    label: &Name,
    args: &[Expr],
    result_at: &Option<(Name, u32)>,
) -> Result<(), AllocError>
    ensures { OnOk result
        (out.new.items
        ≡ all_put out.old.items (act_marks (Call label.now (map expression_of args.now) result_at.now))) }
{
    open(out, b'\n', b"call")?;
    put_label(out, b' ', label)?;
    put_exprs(out, args)?;
    put_word(out, b"result")?;
    put_result(out, result_at)?;
    close(out)?;
    Ok(())
}

fn put_value(out: &mut Vec<u8>, value: &Option<Expr>) -> Result<(), AllocError>
    ensures { OnOk result
        (out.new.items ≡ all_put out.old.items (if_any term_marks (option_map expression_of value.now))) }
{
    match value {
        Some(expr) => put_expr(out, expr),
        None => Ok(()),
    }
}

fn put_return(out: &mut Vec<u8>, value: &Option<Expr>) -> Result<(), AllocError>
    ensures { OnOk result
        (out.new.items ≡ all_put out.old.items (act_marks (Return (option_map expression_of value.now)))) }
{
    open(out, b'\n', b"return")?;
    put_value(out, value)?;
    close(out)?;
    Ok(())
}

fn put_null(out: &mut Vec<u8>) -> Result<(), AllocError>
    ensures { OnOk result (out.new.items ≡ all_put out.old.items (act_marks Null)) }
{
    open(out, b'\n', b"null")?;
    close(out)?;
    Ok(())
}

fn put_stmt(out: &mut Vec<u8>, stmt: &Stmt) -> Result<(), AllocError>
    ensures { OnOk result (out.new.items ≡ all_put out.old.items (act_marks (statement_of stmt.now))) }
{
    match stmt {
        Stmt::Null => put_null(out),
        Stmt::Store(at, value) => put_store(out, at, value),
        Stmt::Jump(label) => put_jump(out, label),
        Stmt::Switch(value, targets, others) => put_switch(out, value, targets, others),
        Stmt::Call(label, args, result_at) => put_call(out, label, args, result_at),
        Stmt::Return(value) => put_return(out, value),
    }
}

fn put_item(out: &mut Vec<u8>, item: &Item) -> Result<(), AllocError>
    ensures { OnOk result (out.new.items ≡ all_put out.old.items (entry_marks (item_of item.now))) }
{
    match item {
        Item::Label(name) => put_label(out, b'\n', name),
        Item::Stmt(stmt) => put_stmt(out, stmt),
    }
}

fn put_items(out: &mut Vec<u8>, items: &[Item]) -> Result<(), AllocError>
    ensures { OnOk result
        (out.new.items ≡ all_put out.old.items (listed (codes "stmts") entry_marks (map item_of items.now))) }
{
    open(out, b' ', b"stmts")?;
    for item in items {
        put_item(out, item)?;
    }
    close(out)?;
    Ok(())
}

// ---- programs

fn put_alloc(out: &mut Vec<u8>, alloc: &Alloc) -> Result<(), AllocError>
    ensures { OnOk result (out.new.items ≡ all_put out.old.items (frame_marks (allocation_of alloc.now))) }
{
    open(out, b'\n', b"alloc")?;
    put_number(out, 32)?;
    put_name(out, &alloc.name)?;
    put_number(out, alloc.bits as u64)?;
    close(out)?;
    Ok(())
}

fn put_allocs(out: &mut Vec<u8>, word: &[u8], allocs: &[Alloc]) -> Result<(), AllocError>
    ensures { OnOk result
        (out.new.items ≡ all_put out.old.items (listed word.now frame_marks (map allocation_of allocs.now))) }
{
    open(out, b' ', word)?;
    for alloc in allocs {
        put_alloc(out, alloc)?;
    }
    close(out)?;
    Ok(())
}

fn put_place(out: &mut Vec<u8>, frame: &Name, offset: u32) -> Result<(), AllocError>
    ensures { OnOk result (out.new.items ≡ all_put out.old.items (place_marks frame.now offset)) }
{
    open(out, b' ', b"ref")?;
    put_name(out, frame)?;
    put_dec_unsigned(out, 32, offset as u64)?;
    close(out)?;
    Ok(())
}

fn put_init(out: &mut Vec<u8>, init: &Init) -> Result<(), AllocError>
    ensures { OnOk result (out.new.items ≡ all_put out.old.items (start_marks (initial_of init.now))) }
{
    open(out, b'\n', b"init")?;
    put_place(out, &init.name, init.offset)?;
    put_num(out, &init.num)?;
    close(out)?;
    Ok(())
}

fn put_inits(out: &mut Vec<u8>, inits: &[Init]) -> Result<(), AllocError>
    ensures { OnOk result (out.new.items ≡ all_put out.old.items (starts_marks (map initial_of inits.now))) }
{
    open(out, b' ', b"inits")?;
    for init in inits {
        put_init(out, init)?;
    }
    close(out)?;
    Ok(())
}

fn put_scope(out: &mut Vec<u8>, func: &Func) -> Result<(), AllocError>
    ensures { OnOk result
        (out.new.items ≡ all_put out.old.items (let f = function_of func.now in scope_marks f.decls f.inits f.items)) }
{
    open(out, b' ', b"scope")?;
    put_allocs(out, b"decls", &func.decls)?;
    put_inits(out, &func.inits)?;
    put_items(out, &func.items)?;
    close(out)?;
    Ok(())
}

fn put_func(out: &mut Vec<u8>, func: &Func) -> Result<(), AllocError>
    ensures { OnOk result (out.new.items ≡ all_put out.old.items (function_marks (function_of func.now))) }
{
    open(out, b'\n', b"func")?;
    put_label(out, b' ', &func.name)?;
    put_allocs(out, b"arg_decls", &func.args)?;
    put_scope(out, func)?;
    close(out)?;
    Ok(())
}

fn put_funcs(out: &mut Vec<u8>, funcs: &[Func]) -> Result<(), AllocError>
    ensures { OnOk result
        (out.new.items ≡ all_put out.old.items (listed (codes "funcs") function_marks (map function_of funcs.now))) }
{
    open(out, b' ', b"funcs")?;
    for func in funcs {
        put_func(out, func)?;
    }
    close(out)?;
    Ok(())
}

fn put_refs(out: &mut Vec<u8>, list: &[u8], word: &[u8], names: &[Name]) -> Result<(), AllocError>
    ensures { OnOk result (out.new.items ≡ all_put out.old.items (refs_marks list.now word.now names.now)) }
{
    open(out, b' ', list)?;
    for name in names {
        put_ref(out, word, name)?;
    }
    close(out)?;
    Ok(())
}

fn put_names(
    out: &mut Vec<u8>,
    word: &[u8],
    frames: &[Name],
    labels: &[Name],
) -> Result<(), AllocError>
    ensures { OnOk result (out.new.items ≡ all_put out.old.items (names_marks word.now frames.now labels.now)) }
{
    open(out, b' ', word)?;
    put_refs(out, b"frefs", b"fref", frames)?;
    put_refs(out, b"lrefs", b"lref", labels)?;
    close(out)?;
    Ok(())
}

fn put_unit(out: &mut Vec<u8>) -> Result<(), AllocError>
    ensures { OnOk result (out.new.items ≡ all_put out.old.items unit_marks) }
{
    open(out, b' ', b"least_addr_unit")?;
    put_number(out, 8)?;
    close(out)?;
    Ok(())
}

fn put_head(out: &mut Vec<u8>) -> Result<(), AllocError>
    ensures { OnOk result (out.new.items ≡ all_put out.old.items head_marks) }
{
    open(out, b' ', b"macro_defs")?;
    close(out)?;
    put_unit(out)?;
    put_word(out, b"little_endian")?;
    Ok(())
}

fn put_globals(out: &mut Vec<u8>, program: &Program) -> Result<(), AllocError>
    ensures { OnOk result (out.new.items ≡ all_put out.old.items (globals_marks (program_of program.now))) }
{
    put_allocs(out, b"decls", &program.decls)?;
    put_inits(out, &program.inits)?;
    put_funcs(out, &program.funcs)?;
    Ok(())
}

fn put_parts(out: &mut Vec<u8>, program: &Program) -> Result<(), AllocError>
    ensures { OnOk result (out.new.items ≡ all_put out.old.items (parts_marks (program_of program.now))) }
{
    put_names(out, b"exports", &program.exports, &program.labels)?;
    put_names(out, b"imports", &[], &[])?;
    put_globals(out, program)?;
    Ok(())
}

// What stands after the first brace.
fn put_body(out: &mut Vec<u8>, program: &Program) -> Result<(), AllocError>
    ensures { OnOk result (out.new.items ≡ all_put out.old.items (body_marks (program_of program.now))) }
{
    put_word(out, b"alf")?;
    put_head(out)?;
    put_parts(out, program)?;
    close(out)?;
    Ok(())
}

/// The canonical text of a program.
///
/// The tokens stand with one space between two of them, but with a line feed in its place before each
/// member of the lists of frames, initial values, functions and statements. A number has no zeros
/// before its digits, and a signed number that is negative is written by its distance from 0. Takes
/// memory for the text.
pub fn print(alloc: Global, program: &Program) -> Result<Vec<u8>, AllocError>
    ensures { IfOk result (λ text. text.items ≡ canonical_text (program_of program.now)) }
{
    let mut out = Vec::new(alloc);
    out.push(b'{')?;
    put_body(&mut out, program)?;
    out.push(b'\n')?;
    Ok(out)
}
