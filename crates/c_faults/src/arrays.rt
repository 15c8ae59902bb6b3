//! Arrays and their initialisers.

ghost use Rattle.std.specs.Prelude.{◌≡◌};
ghost use Rattle.std.specs.Option.{option_map};
ghost use Rattle.c_rules.specs.Faults.{earliest};
ghost use Rattle.c_rules.specs.Names as names;
ghost use Rattle.c_rules.specs.Statements.{array_faults, initialiser_faults, first_of_constant};
ghost use Rattle.c_scopes.specs.FirstFault.{told};

use c_scopes::{Fault, Words};
use c_tokens::Worth;
use c_unit::Constant;

/// The first fault of an array: that it has no elements, or more initialisers than elements.
pub fn check_array(
    words: &Words<'_>,
    size: u32,
    firsts: &Option<Vec<Constant>>,
) -> Result<(), Fault>
    ensures told { told result
        ≡ earliest (array_faults words.now size (option_map (λ constants. constants.items) firsts.now)) }
{
    let count = number_of(words.worth_at(size));
    if count == 0 {
        return Err(Fault::Mistyped(size));
    }
    check_initialisers(count, firsts)
}

// The first of the initialisers for which there is no element.
fn check_initialisers(count: u32, firsts: &Option<Vec<Constant>>) -> Result<(), Fault>
    ensures told { told result
        ≡ earliest (initialiser_faults count (option_map (λ constants. constants.items) firsts.now)) }
{
    match firsts {
        None => Ok(()),
        Some(firsts) => match firsts.get(count as usize) {
            None => Ok(()),
            Some(constant) => Err(Fault::Mistyped(first_of_constant(*constant))),
        },
    }
}

/// The number of a constant.
pub fn number_of(worth: Worth) -> u32
    ensures { result ≡ names.number_of worth }
{
    match worth {
        Worth::NoConstant => 0,
        Worth::TooLarge => 0,
        Worth::Int(number) => number,
        Worth::UnsignedInt(number) => number,
    }
}

// The first token of a constant, of which the minus stands right before it.
fn first_of_constant(constant: Constant) -> u32
    ensures { result ≡ first_of_constant constant }
{
    if constant.minus {
        constant.token.saturating_sub(1)
    } else {
        constant.token
    }
}
