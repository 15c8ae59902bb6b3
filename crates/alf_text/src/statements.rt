//! Items of a function: labels and statements.

ghost use Rattle.grammar.specs.Rule.{many};
ghost use Rattle.alf_program.specs.Tree.{item_of};
ghost use Rattle.alf_reader.specs.Reading.{Reads};
ghost use Rattle.alf_text.specs.Grammar.{opens_target, target, default_arm, switch, with_word, store, label_item, null};
ghost use Rattle.alf_text.specs.Grammar.{leaving, jump, result_word, call, returns, item_tail, item};

use crate::sequences::Targets;
use alf_program::{Item, Num, Stmt};
use alf_reader::{Departure, Reader, outside};
use flow_base::Name;
use grammar::many;

/// `{ target NUM LABEL }`.
#[tactic(auto, unfolding(crate::specs::Grammar::target))]
pub fn target<'a>(reader: &mut Reader<'a>) -> Result<(Num, Name), Departure<'a>>
    ensures { Reads target (λ x. x) result reader.old reader.new }
{
    reader.begin(b"target")?;
    let num = reader.num()?;
    let label = reader.label()?;
    reader.closing()?;
    Ok((num, label))
}

fn targets<'a>(reader: &mut Reader<'a>) -> Result<Vec<(Num, Name)>, Departure<'a>>
    ensures { Reads (many opens_target target) (λ x. x.items) result reader.old reader.new }
{
    let targets = many(reader.alloc, &Targets, reader)?;
    Ok(targets)
}

#[tactic(auto, unfolding(crate::specs::Grammar::default_arm))]
fn default_arm<'a>(reader: &mut Reader<'a>) -> Result<Name, Departure<'a>>
    ensures { Reads default_arm (λ x. x) result reader.old reader.new }
{
    reader.begin(b"default")?;
    let label = reader.label()?;
    reader.closing()?;
    Ok(label)
}

#[tactic(auto, unfolding(crate::specs::Grammar::switch))]
fn switch<'a>(reader: &mut Reader<'a>) -> Result<Item, Departure<'a>>
    ensures { Reads switch item_of result reader.old reader.new }
{
    let value = reader.whole_expr()?;
    let targets = targets(reader)?;
    let others = default_arm(reader)?;
    reader.closing()?;
    Ok(Item::Stmt(Stmt::Switch(value, targets, others)))
}

#[tactic(auto, unfolding(crate::specs::Grammar::with_word))]
fn with_word<'a>(reader: &mut Reader<'a>) -> Result<(), Departure<'a>>
    ensures { Reads with_word (λ x. x) result reader.old reader.new }
{
    reader.word(b"with")?;
    Ok(())
}

#[tactic(auto, unfolding(crate::specs::Grammar::store))]
fn store<'a>(reader: &mut Reader<'a>) -> Result<Item, Departure<'a>>
    ensures { Reads store item_of result reader.old reader.new }
{
    let at = reader.whole_expr()?;
    with_word(reader)?;
    let value = reader.whole_expr()?;
    reader.closing()?;
    Ok(Item::Stmt(Stmt::Store(at, value)))
}

#[tactic(auto, unfolding(crate::specs::Grammar::label_item))]
fn label_item<'a>(reader: &mut Reader<'a>) -> Result<Item, Departure<'a>>
    ensures { Reads label_item item_of result reader.old reader.new }
{
    let name = reader.label_tail()?;
    Ok(Item::Label(name))
}

#[tactic(auto, unfolding(crate::specs::Grammar::null))]
fn null<'a>(reader: &mut Reader<'a>) -> Result<Item, Departure<'a>>
    ensures { Reads null item_of result reader.old reader.new }
{
    reader.closing()?;
    Ok(Item::Stmt(Stmt::Null))
}

#[tactic(auto, unfolding(crate::specs::Grammar::leaving))]
fn leaving<'a>(reader: &mut Reader<'a>) -> Result<(), Departure<'a>>
    ensures { Reads leaving (λ x. x) result reader.old reader.new }
{
    reader.word(b"leaving")?;
    Ok(())
}

#[tactic(auto, unfolding(crate::specs::Grammar::jump))]
fn jump<'a>(reader: &mut Reader<'a>) -> Result<Item, Departure<'a>>
    ensures { Reads jump item_of result reader.old reader.new }
{
    let name = reader.label()?;
    leaving(reader)?;
    reader.fixed(0)?;
    reader.closing()?;
    Ok(Item::Stmt(Stmt::Jump(name)))
}

#[tactic(auto, unfolding(crate::specs::Grammar::result_word))]
fn result_word<'a>(reader: &mut Reader<'a>) -> Result<(), Departure<'a>>
    ensures { Reads result_word (λ x. x) result reader.old reader.new }
{
    reader.word(b"result")?;
    Ok(())
}

#[tactic(auto, unfolding(crate::specs::Grammar::call))]
fn call<'a>(reader: &mut Reader<'a>) -> Result<Item, Departure<'a>>
    ensures { Reads call item_of result reader.old reader.new }
{
    let name = reader.label()?;
    let args = reader.whole_exprs()?;
    result_word(reader)?;
    let to = reader.maybe_address()?;
    reader.closing()?;
    Ok(Item::Stmt(Stmt::Call(name, args, to)))
}

#[tactic(auto, unfolding(crate::specs::Grammar::returns))]
fn returns<'a>(reader: &mut Reader<'a>) -> Result<Item, Departure<'a>>
    ensures { Reads returns item_of result reader.old reader.new }
{
    let value = reader.maybe_expr()?;
    reader.closing()?;
    Ok(Item::Stmt(Stmt::Return(value)))
}

/// A label or a statement.
#[tactic(auto, unfolding(crate::specs::Grammar::item, crate::specs::Grammar::item_tail, alf_reader::specs::Grammar::unknown))]
pub fn item<'a>(reader: &mut Reader<'a>) -> Result<Item, Departure<'a>>
    ensures { Reads item item_of result reader.old reader.new }
{
    reader.opening()?;
    let word = reader.some_word()?;
    if word.text == b"label".as_slice() {
        label_item(reader)
    } else if word.text == b"null".as_slice() {
        null(reader)
    } else if word.text == b"store".as_slice() {
        store(reader)
    } else if word.text == b"jump".as_slice() {
        jump(reader)
    } else if word.text == b"switch".as_slice() {
        switch(reader)
    } else if word.text == b"call".as_slice() {
        call(reader)
    } else if word.text == b"return".as_slice() {
        returns(reader)
    } else {
        Err(outside(word))
    }
}
