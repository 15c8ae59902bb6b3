//! Faults as they are told: with names and places in place of tokens.

ghost use Rattle.std.specs.Prelude.{◌≡◌, ℕ, List, Some};
ghost use Rattle.c_unit.specs.Units.{unit_of, word_of_span};
ghost use Rattle.c_rules.specs.Faults.{earliest};
ghost use Rattle.c_rules.specs.Names.{text_at};
ghost use Rattle.c_rules.specs.Units.{faults_in};
ghost use Rattle.c_rules.specs.Programs.{place_at};
ghost use Rattle.c_scopes.specs.FirstFault.{fault_of};
ghost use Rattle.c_check.specs.Programs.{IsTold};

use crate::fault::CFault;
use c_scopes::{Fault, Words};
use c_unit::{CUnit, Span};
use flow_base::{Name, Place, place_of};
use std::alloc::Global;

/// What is told of the first fault of the text.
pub fn told(alloc: Global, unit: &CUnit, fault: Fault) -> CFault
    requires { earliest (faults_in (unit_of unit.now)) ≡ Some (fault_of fault) }
    ensures { (root : List ℕ) → IsTold (unit_of unit.now) root result }
{
    let words = Words::of(unit);
    match fault {
        Fault::Unknown(token) => match Name::new(alloc, words.text_at(token)) {
            Ok(name) => CFault::UnknownName(name),
            Err(_) => CFault::Memory,
        },
        Fault::Duplicate(token) => match Name::new(alloc, words.text_at(token)) {
            Ok(name) => CFault::Duplicate(name),
            Err(_) => CFault::Memory,
        },
        Fault::Mistyped(token) => CFault::Mistyped(place_at(unit, token)),
    }
}

// The place of a token.
fn place_at(unit: &CUnit, token: u32) -> Place
    ensures { result ≡ place_at (unit_of unit.now).words token }
{
    match unit.tokens.get(token as usize) {
        Some(span) => place_of_span(&unit.text, *span),
        None => Place {
            offset: 0,
            line: 1,
            column: 1,
        },
    }
}

// The place where a range begins.
fn place_of_span(text: &[u8], span: Span) -> Place
    ensures { result ≡ (word_of_span text.now span).place }
{
    place_of(text, text.len().saturating_sub(span.start))
}
