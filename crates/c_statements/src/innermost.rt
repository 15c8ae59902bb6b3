//! What stands where statements may not be nested further.

ghost use Rattle.c_unit.specs.Tree.{statement_of};
ghost use Rattle.c_grammar.specs.Tokens.{one};
ghost use Rattle.c_grammar.specs.Statements.{fits_too_nested, innermost_item, innermost};
ghost use Rattle.c_reader.specs.Reading.{Reads};

use crate::labels::too_nested;
use crate::locals::declaration;
use c_grammar::Standing;
use c_reader::{Departure, Reader};
use c_unit::Stmt;

// No statement stands there.
fn no_statement(reader: &mut Reader<'_>, place: Standing) -> Result<Stmt, Departure>
    ensures { Reads (one (fits_too_nested place)) statement_of result reader.old reader.new }
{
    Err(too_nested(reader, place))
}

// A declaration, which is no statement.
#[tactic(auto, unfolding(c_grammar::specs::Statements::innermost_item))]
fn innermost_item(reader: &mut Reader<'_>, place: Standing) -> Result<Stmt, Departure>
    ensures { Reads (innermost_item place) statement_of result reader.old reader.new }
{
    if reader.at_specifier() {
        let stmt = declaration(reader)?;
        Ok(stmt)
    } else {
        let stmt = no_statement(reader, place)?;
        Ok(stmt)
    }
}

/// What stands at a place of this kind where statements may not be nested further: a declaration
/// where one may stand, and no statement.
#[tactic(auto, unfolding(c_grammar::specs::Statements::innermost))]
pub fn read_innermost(reader: &mut Reader<'_>, place: Standing) -> Result<Stmt, Departure>
    ensures { Reads (innermost place) statement_of result reader.old reader.new }
{
    match place {
        Standing::Part => no_statement(reader, Standing::Part),
        Standing::Item => innermost_item(reader, Standing::Item),
        Standing::SwitchItem => innermost_item(reader, Standing::SwitchItem),
        Standing::SwitchBlock => no_statement(reader, Standing::SwitchBlock),
    }
}
