//! What is read of a statement after what stands in it.

ghost use Rattle.std.specs.Prelude.{◌≡◌};
ghost use Rattle.std.specs.Option.{option_map};
ghost use Rattle.c_unit.specs.Tree.{expression_of};
ghost use Rattle.c_reader.specs.Reading.{Reads};
ghost use Rattle.c_statements.specs.Heads.{control_of, is_if, do_tail, control_tail};

use crate::heads::Control;
use crate::locals::semicolon;
use crate::loops::{controlling, while_word};
use c_grammar::Others;
use c_reader::{Departure, Reader};
use c_unit::Expr;

/// Whether an `else` may follow.
pub fn is_if(control: &Control) -> bool
    ensures { result ≡ is_if (control_of control.now) }
{
    match control {
        Control::If(_) => true,
        _ => false,
    }
}

// The rest of a `do`, after its body.
#[tactic(auto, unfolding(crate::specs::Heads::do_tail))]
fn do_tail(reader: &mut Reader<'_>) -> Result<Option<Expr>, Departure>
    ensures { Reads do_tail (option_map expression_of) result reader.old reader.new }
{
    while_word(reader)?;
    let condition = controlling(reader)?;
    semicolon(reader, Others::Nothing)?;
    Ok(Some(condition))
}

/// What is read after the body and what is done otherwise.
#[tactic(auto, unfolding(crate::specs::Heads::control_tail))]
pub fn control_tail(reader: &mut Reader<'_>, control: &Control) -> Result<Option<Expr>, Departure>
    ensures { Reads (control_tail (control_of control.now)) (option_map expression_of) result reader.old reader.new }
{
    match control {
        Control::Do => do_tail(reader),
        _ => Ok(None),
    }
}
