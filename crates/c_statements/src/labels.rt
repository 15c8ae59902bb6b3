//! Labels of a switch, and what begins with a symbol.

ghost use Rattle.std.specs.Prelude.{◌≡◌};
ghost use Rattle.grammar.specs.Form.{Fails};
ghost use Rattle.c_unit.specs.Tree.{statement_of};
ghost use Rattle.c_grammar.specs.Symbols.{starts_statement, is_label, is_brace};
ghost use Rattle.c_grammar.specs.Tokens.{at_symbol, one};
ghost use Rattle.c_grammar.specs.Statements.{label_end, colon, case_label, default_label, label, is_statement};
ghost use Rattle.c_grammar.specs.Statements.{may_begin, others_at, fits_too_nested};
ghost use Rattle.c_reader.specs.Reading.{position, fault_of, Reads};

use c_grammar::{Others, Standing, Symbol, starts_statement};
use c_reader::{Departure, Reader, misfit};
use c_unit::Stmt;
use flow_base::Which;

const MOST_NESTING: u64 = 32;

// Whether a statement begins.
fn at_statement(reader: &Reader<'_>) -> bool
    ensures { result ≡ at_symbol starts_statement (position reader.now) }
{
    match reader.rest.first() {
        Some(token) => starts_statement(token.symbol),
        None => false,
    }
}

/// Whether a statement begins by its first word.
pub fn at_worded(reader: &Reader<'_>) -> bool
    ensures { result ≡ at_symbol is_statement (position reader.now) }
{
    match reader.rest.first() {
        Some(token) => match token.symbol {
            Symbol::Statement => true,
            _ => false,
        },
        None => false,
    }
}

#[tactic(auto, unfolding(c_grammar::specs::Statements::label_end))]
fn label_end(reader: &mut Reader<'_>) -> Result<(), Departure>
    ensures { Reads label_end (λ x. x) result reader.old reader.new }
{
    if reader.at_label() || at_statement(reader) {
        Ok(())
    } else {
        Err(reader.misfit_next(Others::Nothing))
    }
}

#[tactic(auto, unfolding(c_grammar::specs::Statements::colon))]
fn colon(reader: &mut Reader<'_>, others: Others) -> Result<(), Departure>
    ensures { Reads (colon others) (λ x. x) result reader.old reader.new }
{
    reader.mark(b":", others)?;
    label_end(reader)?;
    Ok(())
}

#[tactic(auto, unfolding(c_grammar::specs::Statements::case_label))]
fn case_label(reader: &mut Reader<'_>) -> Result<Stmt, Departure>
    ensures { Reads case_label statement_of result reader.old reader.new }
{
    let token = reader.mark(b"case", Others::Nothing)?;
    let constant = reader.signed_constant(Others::Expressions)?;
    let others = Others::Rest {
        unary: false,
        comma: false,
    };
    colon(reader, others)?;
    Ok(Stmt::Case(token, constant))
}

#[tactic(auto, unfolding(c_grammar::specs::Statements::default_label))]
fn default_label(reader: &mut Reader<'_>) -> Result<Stmt, Departure>
    ensures { Reads default_label statement_of result reader.old reader.new }
{
    let token = reader.mark(b"default", Others::Nothing)?;
    colon(reader, Others::Nothing)?;
    Ok(Stmt::Default(token))
}

/// A label of a switch.
#[tactic(auto, unfolding(c_grammar::specs::Statements::label, c_grammar::specs::Tokens::sees))]
pub fn read_label(reader: &mut Reader<'_>) -> Result<Stmt, Departure>
    ensures { Reads label statement_of result reader.old reader.new }
{
    if reader.at(b"case") {
        let label = case_label(reader)?;
        Ok(label)
    } else {
        let label = default_label(reader)?;
        Ok(label)
    }
}

fn is_label(symbol: Symbol) -> bool
    ensures { result ≡ is_label symbol }
{
    match symbol {
        Symbol::Label => true,
        _ => false,
    }
}

fn is_brace(symbol: Symbol) -> bool
    ensures { result ≡ is_brace symbol }
{
    match symbol {
        Symbol::OpenBrace => true,
        _ => false,
    }
}

// Whether a statement or a label begins with the symbol that may stand there.
fn may_begin(standing: Standing, symbol: Symbol) -> bool
    ensures { result ≡ may_begin standing symbol }
{
    match standing {
        Standing::Part => starts_statement(symbol),
        Standing::Item => starts_statement(symbol),
        Standing::SwitchItem => is_label(symbol) || starts_statement(symbol),
        Standing::SwitchBlock => is_brace(symbol),
    }
}

fn others_at(standing: Standing) -> Others
    ensures { result ≡ others_at standing }
{
    match standing {
        Standing::Part => Others::Labels,
        Standing::Item => Others::Labels,
        Standing::SwitchItem => Others::Nothing,
        Standing::SwitchBlock => Others::Statements,
    }
}

/// The departure where statements may not be nested further.
pub fn too_nested(reader: &mut Reader<'_>, standing: Standing) -> Departure
    ensures { Fails (fault_of result) ((one (fits_too_nested standing)).form.reading (position reader.old)) }
{
    match reader.token() {
        Ok(token) => {
            if may_begin(standing, token.symbol) {
                Departure::Limit(Which::Nesting, MOST_NESTING + 1)
            } else {
                misfit(&token, others_at(standing))
            }
        }
        Err(departure) => departure,
    }
}
