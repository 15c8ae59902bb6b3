//! Heads of statements: each up to the statements that stand in it.

ghost use Rattle.c_reader.specs.Reading.{seen, Reads};
ghost use Rattle.c_statements.specs.Heads.{head_of, if_head, while_head, for_head, switch_head, leaving_head};
ghost use Rattle.c_statements.specs.Heads.{worded_head_after, worded_head, empty_head, block_head, effect_head};
ghost use Rattle.c_statements.specs.Heads.{unworded_long_head, unworded_head, statement_head, declared_head, item_head};
ghost use Rattle.c_statements.specs.Heads.{label_head, switch_item_head, placed_head};

use crate::labels::{at_worded, read_label};
use crate::locals::declaration;
use crate::loops::{controlling, for_condition, for_first, for_last, switch_value};
use crate::simple::{effect_statement, empty_statement, leaving_after};
use c_expressions::open_paren;
use c_grammar::{Others, Standing};
use c_reader::{Departure, Reader, Token};
use c_unit::{Effect, Expr, Stmt};

/// The word of a statement in which another stands, and what is read between them.
#[derive(Drop)]
pub enum Control {
    If(Expr),
    While(Expr),
    Do,
    For(Option<Box<Stmt>>, Option<Expr>, Option<Effect>),
}

/// A statement, as far as it was read before any that stands in it.
#[derive(Drop)]
pub enum Head {
    /// No statement stands in it.
    Whole(Stmt),
    /// A brace is open, and what stands in the block is of this kind.
    InBraces(Standing),
    /// A switch, after its value.
    AtSwitch(Expr),
    Controls(Control),
}

#[tactic(auto, unfolding(crate::specs::Heads::if_head))]
fn if_head(reader: &mut Reader<'_>) -> Result<Head, Departure>
    ensures { Reads if_head head_of result reader.old reader.new }
{
    let condition = controlling(reader)?;
    Ok(Head::Controls(Control::If(condition)))
}

#[tactic(auto, unfolding(crate::specs::Heads::while_head))]
fn while_head(reader: &mut Reader<'_>) -> Result<Head, Departure>
    ensures { Reads while_head head_of result reader.old reader.new }
{
    let condition = controlling(reader)?;
    Ok(Head::Controls(Control::While(condition)))
}

#[tactic(auto, unfolding(crate::specs::Heads::for_head))]
fn for_head(reader: &mut Reader<'_>) -> Result<Head, Departure>
    ensures { Reads for_head head_of result reader.old reader.new }
{
    open_paren(reader)?;
    let first = for_first(reader)?;
    let condition = for_condition(reader)?;
    let after = for_last(reader)?;
    Ok(Head::Controls(Control::For(first, condition, after)))
}

#[tactic(auto, unfolding(crate::specs::Heads::switch_head))]
fn switch_head(reader: &mut Reader<'_>) -> Result<Head, Departure>
    ensures { Reads switch_head head_of result reader.old reader.new }
{
    let value = switch_value(reader)?;
    Ok(Head::AtSwitch(value))
}

#[tactic(auto, unfolding(crate::specs::Heads::leaving_head))]
fn leaving_head(reader: &mut Reader<'_>, word: &Token<'_>) -> Result<Head, Departure>
    ensures { Reads (leaving_head (seen word.now)) head_of result reader.old reader.new }
{
    let stmt = leaving_after(reader, word)?;
    Ok(Head::Whole(stmt))
}

#[tactic(auto, unfolding(crate::specs::Heads::worded_head_after))]
fn worded_head_after(reader: &mut Reader<'_>, word: &Token<'_>) -> Result<Head, Departure>
    ensures { Reads (worded_head_after (seen word.now)) head_of result reader.old reader.new }
{
    if word.text == b"if".as_slice() {
        if_head(reader)
    } else if word.text == b"while".as_slice() {
        while_head(reader)
    } else if word.text == b"do".as_slice() {
        Ok(Head::Controls(Control::Do))
    } else if word.text == b"for".as_slice() {
        for_head(reader)
    } else if word.text == b"switch".as_slice() {
        switch_head(reader)
    } else {
        leaving_head(reader, word)
    }
}

#[tactic(auto, unfolding(crate::specs::Heads::worded_head))]
fn worded_head(reader: &mut Reader<'_>) -> Result<Head, Departure>
    ensures { Reads worded_head head_of result reader.old reader.new }
{
    let word = reader.some_token()?;
    let head = worded_head_after(reader, &word)?;
    Ok(head)
}

#[tactic(auto, unfolding(crate::specs::Heads::empty_head))]
fn empty_head(reader: &mut Reader<'_>) -> Result<Head, Departure>
    ensures { Reads empty_head head_of result reader.old reader.new }
{
    let stmt = empty_statement(reader)?;
    Ok(Head::Whole(stmt))
}

#[tactic(auto, unfolding(crate::specs::Heads::block_head))]
fn block_head(reader: &mut Reader<'_>, others: Others, place: Standing) -> Result<Head, Departure>
    ensures { Reads (block_head others place) head_of result reader.old reader.new }
{
    reader.mark(b"{", others)?;
    Ok(Head::InBraces(place))
}

#[tactic(auto, unfolding(crate::specs::Heads::effect_head))]
fn effect_head(reader: &mut Reader<'_>, others: Others) -> Result<Head, Departure>
    ensures { Reads (effect_head others) head_of result reader.old reader.new }
{
    let stmt = effect_statement(reader, others)?;
    Ok(Head::Whole(stmt))
}

#[tactic(auto, unfolding(crate::specs::Heads::unworded_long_head, c_grammar::specs::Tokens::sees))]
fn unworded_long_head(reader: &mut Reader<'_>, others: Others) -> Result<Head, Departure>
    ensures { Reads (unworded_long_head others) head_of result reader.old reader.new }
{
    if reader.at(b"{") {
        let head = block_head(reader, Others::Nothing, Standing::Item)?;
        Ok(head)
    } else {
        let head = effect_head(reader, others)?;
        Ok(head)
    }
}

#[tactic(auto, unfolding(crate::specs::Heads::unworded_head, c_grammar::specs::Tokens::sees))]
fn unworded_head(reader: &mut Reader<'_>, others: Others) -> Result<Head, Departure>
    ensures { Reads (unworded_head others) head_of result reader.old reader.new }
{
    if reader.at(b";") {
        let head = empty_head(reader)?;
        Ok(head)
    } else {
        let head = unworded_long_head(reader, others)?;
        Ok(head)
    }
}

#[tactic(auto, unfolding(crate::specs::Heads::statement_head))]
fn statement_head(reader: &mut Reader<'_>, others: Others) -> Result<Head, Departure>
    ensures { Reads (statement_head others) head_of result reader.old reader.new }
{
    if at_worded(reader) {
        let head = worded_head(reader)?;
        Ok(head)
    } else {
        let head = unworded_head(reader, others)?;
        Ok(head)
    }
}

#[tactic(auto, unfolding(crate::specs::Heads::declared_head))]
fn declared_head(reader: &mut Reader<'_>) -> Result<Head, Departure>
    ensures { Reads declared_head head_of result reader.old reader.new }
{
    let stmt = declaration(reader)?;
    Ok(Head::Whole(stmt))
}

// Of a declaration or a statement.
#[tactic(auto, unfolding(crate::specs::Heads::item_head))]
fn item_head(reader: &mut Reader<'_>, others: Others) -> Result<Head, Departure>
    ensures { Reads (item_head others) head_of result reader.old reader.new }
{
    if reader.at_specifier() {
        let head = declared_head(reader)?;
        Ok(head)
    } else {
        let head = statement_head(reader, others)?;
        Ok(head)
    }
}

#[tactic(auto, unfolding(crate::specs::Heads::label_head))]
fn label_head(reader: &mut Reader<'_>) -> Result<Head, Departure>
    ensures { Reads label_head head_of result reader.old reader.new }
{
    let stmt = read_label(reader)?;
    Ok(Head::Whole(stmt))
}

// Of a label, a declaration or a statement.
#[tactic(auto, unfolding(crate::specs::Heads::switch_item_head))]
fn switch_item_head(reader: &mut Reader<'_>) -> Result<Head, Departure>
    ensures { Reads switch_item_head head_of result reader.old reader.new }
{
    if reader.at_label() {
        let head = label_head(reader)?;
        Ok(head)
    } else {
        let head = item_head(reader, Others::Nothing)?;
        Ok(head)
    }
}

/// The head of what stands at a place of this kind.
#[tactic(auto, unfolding(crate::specs::Heads::placed_head))]
pub fn read_head(reader: &mut Reader<'_>, place: Standing) -> Result<Head, Departure>
    ensures { Reads (placed_head place) head_of result reader.old reader.new }
{
    match place {
        Standing::Part => statement_head(reader, Others::Labels),
        Standing::Item => item_head(reader, Others::Labels),
        Standing::SwitchItem => switch_item_head(reader),
        Standing::SwitchBlock => block_head(reader, Others::Statements, Standing::SwitchItem),
    }
}
