//! Statements in which statements stand. Reading one goes as deep as they may be nested.

ghost use Rattle.std.specs.Prelude.{◌≡◌, ◌&&◌, map};
ghost use Rattle.std.specs.Option.{option_map};
ghost use Rattle.grammar.specs.Rule.{maybe, many};
ghost use Rattle.c_unit.specs.Tree.{Block, expression_of, statement_of, statements_of};
ghost use Rattle.c_grammar.specs.declared.standing.Standing.TheVariants as standings;
ghost use Rattle.c_grammar.specs.Statements.{at_else, else_part, in_block, standing};
ghost use Rattle.c_reader.specs.Reading.{position, Reads};
ghost use Rattle.c_statements.specs.Heads.{control_of, head_of, controlled, switched, after_head, braced};

use crate::ends::{control_tail, is_if};
use crate::heads::{Control, Head, read_head};
use crate::innermost::read_innermost;
use crate::labels::too_nested;
use crate::made::control_statement;
use c_grammar::{Others, Standing};
use c_reader::{Departure, Reader};
use c_unit::{Expr, Stmt};

/// What stands at a place of this kind, where statements may be nested so many times.
#[cycle(statement)]
#[tactic(auto, using(crate::proofs::Levels::standing_none, crate::proofs::Levels::standing_more), unfolding(crate::specs::Heads::headed))]
pub fn read_standing(
    reader: &mut Reader<'_>,
    nesting: u32,
    place: Standing,
) -> Result<Stmt, Departure>
    ensures { Reads (standing nesting place) statement_of result reader.old reader.new }
{
    if nesting == 0 {
        return read_innermost(reader, place);
    }
    let head = read_head(reader, place)?;
    let stmt = after_head(reader, nesting - 1, head)?;
    Ok(stmt)
}

// What follows a head.
#[cycle(statement)]
#[tactic(auto, unfolding(crate::specs::Heads::after_head))]
fn after_head(reader: &mut Reader<'_>, nesting: u32, head: Head) -> Result<Stmt, Departure>
    ensures { Reads (after_head (standing nesting) (head_of head)) statement_of result reader.old reader.new }
{
    match head {
        Head::Whole(stmt) => Ok(stmt),
        Head::InBraces(place) => braced(reader, nesting, place),
        Head::AtSwitch(value) => switched(reader, nesting, value),
        Head::Controls(control) => controlled(reader, nesting, control),
    }
}

// What stands in braces, after the first of them.
#[cycle(statement)]
#[tactic(auto, unfolding(crate::specs::Heads::braced))]
fn braced(reader: &mut Reader<'_>, nesting: u32, place: Standing) -> Result<Stmt, Departure>
    ensures { Reads (braced (standing nesting place)) statement_of result reader.old reader.new }
{
    let items = block_items(reader, nesting, place)?;
    reader.close_brace()?;
    Ok(Stmt::Block(items))
}

// A switch, after its value.
#[cycle(statement)]
#[tactic(auto, unfolding(crate::specs::Heads::switched))]
fn switched(reader: &mut Reader<'_>, nesting: u32, value: Expr) -> Result<Stmt, Departure>
    ensures { Reads (switched (standing nesting) (expression_of value)) statement_of result reader.old reader.new }
{
    let body = switch_block(reader, nesting)?;
    Ok(Stmt::Switch(value, body))
}

// The block of a switch.
#[cycle(statement)]
#[tactic(auto, using(crate::proofs::Levels::switch_none, crate::proofs::Levels::switch_more), unfolding(c_grammar::specs::Statements::block))]
fn switch_block(reader: &mut Reader<'_>, nesting: u32) -> Result<Vec<Stmt>, Departure>
    ensures { Reads (standing nesting standings.SwitchBlock) (λ x. Block (statements_of (map statement_of x.items)))
        result reader.old reader.new }
{
    if nesting == 0 {
        return Err(too_nested(reader, Standing::SwitchBlock));
    }
    reader.mark(b"{", Others::Statements)?;
    let items = block_items(reader, nesting - 1, Standing::SwitchItem)?;
    reader.close_brace()?;
    Ok(items)
}

// A statement in which another stands, after what comes before that.
#[cycle(statement)]
#[tactic(auto, unfolding(crate::specs::Heads::controlled))]
fn controlled(reader: &mut Reader<'_>, nesting: u32, control: Control) -> Result<Stmt, Departure>
    ensures { Reads (controlled (standing nesting) (control_of control)) statement_of result reader.old reader.new }
{
    let body = boxed_part(reader, nesting)?;
    let otherwise = maybe_else(reader, nesting, is_if(&control))?;
    let tail = control_tail(reader, &control)?;
    Ok(control_statement(control, body, otherwise, tail))
}

// A statement that stands in another.
#[cycle(statement)]
fn boxed_part(reader: &mut Reader<'_>, nesting: u32) -> Result<Box<Stmt>, Departure>
    ensures { Reads (standing nesting standings.Part) (λ s. statement_of s.value) result reader.old reader.new }
{
    let stmt = read_standing(reader, nesting, Standing::Part)?;
    Ok(Box::new(reader.alloc, stmt)?)
}

// An `else` belongs to the nearest `if`.
#[cycle(statement)]
#[tactic(auto, unfolding(c_grammar::specs::Statements::else_part))]
fn maybe_else(
    reader: &mut Reader<'_>,
    nesting: u32,
    may: bool,
) -> Result<Option<Box<Stmt>>, Departure>
    ensures { Reads (maybe (λ at. may && at_else at) (else_part (standing nesting)))
        (option_map (λ s. statement_of s.value)) result reader.old reader.new }
{
    if !may {
        return Ok(None);
    }
    if !reader.at(b"else") {
        return Ok(None);
    }
    reader.mark(b"else", Others::Nothing)?;
    let stmt = boxed_part(reader, nesting)?;
    Ok(Some(stmt))
}

// Whether more stands in a block.
fn in_block(reader: &Reader<'_>) -> bool
    ensures { result ≡ in_block (position reader.now) }
{
    !reader.at(b"}")
}

/// What stands in a block, up to its brace.
#[cycle(statement)]
pub fn block_items(
    reader: &mut Reader<'_>,
    nesting: u32,
    place: Standing,
) -> Result<Vec<Stmt>, Departure>
    ensures { Reads (many in_block (standing nesting place)) (λ x. map statement_of x.items) result reader.old
        reader.new }
{
    let mut items = Vec::new(reader.alloc);
    'row: while in_block(reader) {
        match read_standing(reader, nesting, place) {
            Ok(item) => items.push(item)?,
            Err(error) => return Err(error),
        }
    }
    Ok(items)
}
