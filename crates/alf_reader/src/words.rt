//! The words of operators.

ghost use Rattle.std.specs.Prelude.{◌≡◌, All, find, IfSome};
ghost use Rattle.std.specs.Option.{option_map};
ghost use Rattle.std.specs.Str.{bytes_eq};
ghost use Rattle.alf_ops.specs.Names.{TellsOperator};
ghost use Rattle.alf_reader.specs.Grammar.{operator_named};

use alf_ops::{OpRow, rows};

// The first row of this name.
fn row_among<'r>(rows: &'r [OpRow], text: &[u8]) -> Option<&'r OpRow>
    requires { All TellsOperator rows.now }
    ensures first { option_map (λ row. row.now) result ≡ find (λ row. bytes_eq row.name.now text.now) rows.now }
    ensures told { IfSome result (λ row. TellsOperator row.now) }
{
    rows.iter().find(|row| row.name.as_bytes() == text)
}

/// The row of the operator that a word spells.
pub fn operator_row(text: &[u8]) -> Option<&'static OpRow>
    ensures op { option_map (λ row. row.now.op) result ≡ operator_named text.now }
    ensures told { IfSome result (λ row. TellsOperator row.now) }
{
    row_among(rows(), text)
}
