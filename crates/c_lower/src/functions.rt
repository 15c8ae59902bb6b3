//! Functions, lowered.

ghost use Rattle.std.specs.Prelude.{◌≡◌, ◌≤◌, ◌<◌, ◌+◌, ◌^◌, ℕ, List, ◌∷◌, ◌++◌, map, length, IfOk, OnOk};
ghost use Rattle.alf_program.specs.Tree as alf;
ghost use Rattle.c_unit.specs.Limits.{most_elements};
ghost use Rattle.c_unit.specs.Tree.{ExternalTree, Declaration, Definition, declarator_of, external_of, statement_of};
ghost use Rattle.c_unit.specs.Tree.{statements_of};
ghost use Rattle.c_unit.specs.Units.{unit_of};
ghost use Rattle.c_rules.specs.Counts.{all_elements_in};
ghost use Rattle.c_rules.specs.Units.{File, external_after, definitions};
ghost use Rattle.c_rules.specs.SpelledUnits.{elements_of};
ghost use Rattle.c_lower.specs.Heads.{known_at};
ghost use Rattle.c_lowered.specs.Statements.{labels_in_all, calls_in_all};
ghost use Rattle.c_lowered.specs.Programs as laws;
ghost use Rattle.object_layout.specs.Room.{HasRoom};
ghost use Rattle.object_layout.specs.Views.{program_in};
ghost use Rattle.statement_lowering.specs.Afterwards.{Stays};
ghost use Rattle.c_lower.specs.Walk.{funcs_from, HasFewNumbers, HaveFewNumbers};

use crate::heads::{declare, enter_function};
use alf_program::Func;
use c_scopes::Scopes;
use c_unit::{CUnit, Declarator, External, Outcome, Parameter, Stmt};
use condition_lowering::Code;
use flow_base::Name;
use frame_lowering::{Place, frames_in, parameter_frames};
use object_layout::Table;
use statement_lowering::put_body;
use std::alloc::{AllocError, Global};

// A function, where its parameters are known.
fn function(
    code: Code<'_, '_>,
    scopes: &mut Scopes<'_>,
    given: Outcome,
    parameters: &[Parameter],
    body: &[Stmt],
) -> Result<Func, AllocError>
    requires words { (unit_of code.table.now).words ≡ scopes.old.words }
    requires elements { all_elements_in (unit_of code.table.now).words (statements_of (map statement_of body.now))
        ≤ most_elements }
    requires labels { labels_in_all (statements_of (map statement_of body.now)) < 2 ^ 64 }
    requires calls { calls_in_all (program_in code.table.now) (statements_of (map statement_of body.now)) < 2 ^ 64 }
    ensures func { IfOk result
        (λ func. (name : ℕ)
        → alf.function_of func ≡ laws.lowered_function (program_in code.entry.table.now) code.entry.function
        (record {
          name = name;
          result = given;
          parameters = parameters.now;
          scopes = scopes.old.scopes;
          body = statements_of (map statement_of body.now);
        })) }
    ensures stays { OnOk result (Stays scopes.old scopes.new) }
{
    let name = Name::new(code.alloc, code.table.function_name(code.function))?;
    let place = Place {
        alloc: code.alloc,
        table: code.table,
        function: code.function,
    };
    let args = parameter_frames(place, parameters)?;
    let decls = frames_in(place, body)?;
    let mut items = Vec::new(code.alloc);
    put_body(code, scopes, &mut items, given, body)?;
    Ok(Func {
        name,
        args,
        decls,
        inits: Vec::new(code.alloc),
        items,
    })
}

// Puts a function of this number, and gives the next number.
fn put_function(
    code: Code<'_, '_>,
    scopes: &mut Scopes<'_>,
    funcs: &mut Vec<Func>,
    first: u32,
    given: Outcome,
    name: u32,
    parameters: &[Parameter],
    body: &[Stmt],
) -> Result<u32, AllocError>
    requires words { (unit_of code.table.now).words ≡ scopes.old.words }
    requires elements { all_elements_in (unit_of code.table.now).words (statements_of (map statement_of body.now))
        ≤ most_elements }
    requires room { code.function + 1 < 2 ^ 32 }
    requires labels { labels_in_all (statements_of (map statement_of body.now)) < 2 ^ 64 }
    requires calls { calls_in_all (program_in code.table.now) (statements_of (map statement_of body.now)) < 2 ^ 64 }
    ensures funcs { IfOk result
        (λ next. (file : File) (others : List ExternalTree) → scopes.old ≡ known_at scopes.old.words file.scope
        → map alf.function_of funcs.new.items
        ++ funcs_from (program_in code.entry.table.now) next
        (external_after file (Definition first given name parameters.now (map statement_of body.now))) others
        ≡ map alf.function_of funcs.old.items
        ++ funcs_from (program_in code.entry.table.now) code.entry.function file
        (Definition first given name parameters.now (map statement_of body.now) ∷ others)) }
    ensures known { OnOk result ((file : File) → scopes.old ≡ known_at scopes.old.words file.scope
        → scopes.new
        ≡ known_at scopes.old.words
        (external_after file (Definition first given name parameters.now (map statement_of body.now))).scope) }
    ensures number { IfOk result (λ next. next ≡ code.entry.function + 1) }
{
    let _first = first;
    enter_function(code.alloc, scopes, given, name, parameters)?;
    let func = function(code, scopes, given, parameters, body)?;
    scopes.leave()?;
    funcs.push(func)?;
    Ok(code.function + 1)
}

// Puts what stands here, if it is a function, and gives the number of the next one.
fn put_external(
    code: Code<'_, '_>,
    scopes: &mut Scopes<'_>,
    funcs: &mut Vec<Func>,
    external: &External,
) -> Result<u32, AllocError>
    requires words { (unit_of code.table.now).words ≡ scopes.old.words }
    requires elements { elements_of (unit_of code.table.now).words (external_of external.now) ≤ most_elements }
    requires room { code.function + 1 < 2 ^ 32 }
    requires few { HasFewNumbers (program_in code.table.now) (external_of external.now) }
    ensures funcs { IfOk result
        (λ next. (file : File) (others : List ExternalTree) → scopes.old ≡ known_at scopes.old.words file.scope
        → map alf.function_of funcs.new.items
        ++ funcs_from (program_in code.entry.table.now) next (external_after file (external_of external.now)) others
        ≡ map alf.function_of funcs.old.items
        ++ funcs_from (program_in code.entry.table.now) code.entry.function file (external_of external.now ∷ others)) }
    ensures known { OnOk result ((file : File) → scopes.old ≡ known_at scopes.old.words file.scope
        → scopes.new ≡ known_at scopes.old.words (external_after file (external_of external.now)).scope) }
    ensures number { IfOk result
        (λ next. (others : List ExternalTree)
        → next + length (definitions others)
        ≡ code.entry.function + length (definitions (external_of external.now ∷ others))) }
{
    match external {
        External::Declare(first, given, declarators) => {
            put_declaration(code.alloc, scopes, *first, *given, declarators)?;
            Ok(code.function)
        }
        External::Define(first, given, name, parameters, body) => {
            let next = put_function(code, scopes, funcs, *first, *given, *name, parameters, body)?;
            Ok(next)
        }
    }
}

// What a declaration declares is known.
fn put_declaration(
    alloc: Global,
    scopes: &mut Scopes<'_>,
    first: u32,
    given: Outcome,
    declarators: &[Declarator],
) -> Result<(), AllocError>
    ensures { OnOk result ((file : File) → scopes.old ≡ known_at scopes.old.words file.scope
        → scopes.new
        ≡ known_at scopes.old.words
        (external_after file (Declaration first given (map declarator_of declarators.now))).scope) }
{
    let _first = first;
    declare(alloc, scopes, given, declarators)?;
    Ok(())
}

/// The functions of a unit, in order.
pub fn lowered_functions(
    alloc: Global,
    table: &Table<'_>,
    unit: &CUnit,
) -> Result<Vec<Func>, AllocError>
    requires unit { table.now ≡ unit.now }
    requires room { HasRoom (unit_of unit.now) }
    requires few { HaveFewNumbers (program_in unit.now) (unit_of unit.now).externals }
    ensures funcs { IfOk result
        (λ funcs. map alf.function_of funcs.items
        ≡ laws.lowered_from (program_in unit.now) 0 (program_in unit.now).functions) }
{
    let mut scopes = Scopes::new(alloc, unit);
    scopes.enter()?;
    let mut funcs = Vec::new(alloc);
    let mut function: u32 = 0;
    let mut rest = unit.externals.as_slice();
    'externals: while let Some((external, others)) = rest.split_first() {
        let code = Code {
            alloc,
            table,
            function,
        };
        function = put_external(code, &mut scopes, &mut funcs, external)?;
        rest = others;
    }
    Ok(funcs)
}
