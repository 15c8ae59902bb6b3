//! Functions.

ghost use Rattle.std.specs.Prelude.{◌≡◌, map};
ghost use Rattle.alf_program.specs.Tree.{allocation_of, initial_of, item_of, function_of};
ghost use Rattle.alf_program.specs.Writable.{is_ending, ends_well};
ghost use Rattle.alf_reader.specs.Reading.{Reads};
ghost use Rattle.alf_text.specs.Grammar.{closing_after, stmts, scope, arg_decls, function_tail, function, functions};

use crate::sequences::{Funcs, Items};
use alf_program::{Alloc, Func, Init, Item, Stmt};
use alf_reader::{Departure, Reader, misfit};
use alf_tokens::Kind;
use grammar::many;

fn is_ending(item: &Item) -> bool
    ensures { result ≡ is_ending (item_of item.now) }
{
    match item {
        Item::Label(_) => false,
        Item::Stmt(Stmt::Null) => false,
        Item::Stmt(Stmt::Store(_, _)) => false,
        Item::Stmt(Stmt::Jump(_)) => true,
        Item::Stmt(Stmt::Switch(_, _, _)) => true,
        Item::Stmt(Stmt::Call(_, _, _)) => false,
        Item::Stmt(Stmt::Return(_)) => true,
    }
}

// Whether the last item is a jump, a switch or a return.
fn ends_well(items: &[Item]) -> bool
    ensures { result ≡ ends_well (map item_of items.now) }
{
    match items.last() {
        Some(item) => is_ending(item),
        None => false,
    }
}

#[tactic(auto, unfolding(crate::specs::Grammar::closing_after))]
fn closing_after<'a>(reader: &mut Reader<'a>, items: &[Item]) -> Result<(), Departure<'a>>
    ensures { Reads (closing_after (map item_of items.now)) (λ x. x) result reader.old reader.new }
{
    let token = reader.token()?;
    if ends_well(items) && token.kind == Kind::Close {
        Ok(())
    } else {
        Err(misfit(token))
    }
}

#[tactic(auto, unfolding(crate::specs::Grammar::stmts))]
fn stmts<'a>(reader: &mut Reader<'a>) -> Result<Vec<Item>, Departure<'a>>
    ensures { Reads stmts (λ x. map item_of x.items) result reader.old reader.new }
{
    reader.begin(b"stmts")?;
    let items = many(reader.alloc, &Items, reader)?;
    closing_after(reader, &items)?;
    Ok(items)
}

#[tactic(auto, unfolding(crate::specs::Grammar::scope))]
fn scope<'a>(reader: &mut Reader<'a>) -> Result<(Vec<Alloc>, Vec<Init>, Vec<Item>), Departure<'a>>
    ensures { Reads scope (λ x. (map allocation_of x.0.items, map initial_of x.1.items, map item_of x.2.items)) result
        reader.old reader.new }
{
    reader.begin(b"scope")?;
    let decls = reader.allocs(b"decls")?;
    let inits = reader.inits()?;
    let items = stmts(reader)?;
    reader.closing()?;
    Ok((decls, inits, items))
}

#[tactic(auto, unfolding(crate::specs::Grammar::arg_decls))]
fn arg_decls<'a>(reader: &mut Reader<'a>) -> Result<Vec<Alloc>, Departure<'a>>
    ensures { Reads arg_decls (λ x. map allocation_of x.items) result reader.old reader.new }
{
    let args = reader.allocs(b"arg_decls")?;
    Ok(args)
}

// A function after its word.
#[tactic(auto, unfolding(crate::specs::Grammar::function_tail))]
fn function_tail<'a>(reader: &mut Reader<'a>) -> Result<Func, Departure<'a>>
    ensures { Reads function_tail function_of result reader.old reader.new }
{
    let name = reader.label()?;
    let args = arg_decls(reader)?;
    let (decls, inits, items) = scope(reader)?;
    reader.closing()?;
    Ok(Func {
        name,
        args,
        decls,
        inits,
        items,
    })
}

/// A function.
#[tactic(auto, unfolding(crate::specs::Grammar::function))]
pub fn function<'a>(reader: &mut Reader<'a>) -> Result<Func, Departure<'a>>
    ensures { Reads function function_of result reader.old reader.new }
{
    reader.opening()?;
    reader.one_function()?;
    reader.word(b"func")?;
    let func = function_tail(reader)?;
    Ok(func)
}

/// `{ funcs FUNC* }`.
#[tactic(auto, unfolding(crate::specs::Grammar::functions))]
pub fn functions<'a>(reader: &mut Reader<'a>) -> Result<Vec<Func>, Departure<'a>>
    ensures { Reads functions (λ x. map function_of x.items) result reader.old reader.new }
{
    reader.begin(b"funcs")?;
    let funcs = many(reader.alloc, &Funcs, reader)?;
    reader.closing()?;
    Ok(funcs)
}
