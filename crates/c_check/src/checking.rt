//! The checks, in the order in which they are told.

ghost use Rattle.std.specs.Prelude.{◌≡◌, ℕ, List, [], true, IfOk, IfErr, OnOk};
ghost use Rattle.c_unit.specs.Units.{unit_of};
ghost use Rattle.c_rules.specs.Units.{definitions, faults_in};
ghost use Rattle.c_rules.specs.Recursion.{calls_of};
ghost use Rattle.c_rules.specs.Programs.{HasNoCycle, has_root};
ghost use Rattle.c_text.specs.Language.{IsSpelled};
ghost use Rattle.graph_walks.specs.Calls.{IsRanked};
ghost use Rattle.c_check.specs.Programs.{IsTold, PassesChecks};

use crate::externals::check_unit;
use crate::fault::CFault;
use crate::program::CProgram;
use crate::ranks::{function_ranks, names_along};
use crate::telling::told;
use c_faults::Stop;
use c_scopes::Definitions;
use c_unit::CUnit;
use flow_base::Name;
use graph_walks::{CallFault, ranked_calls_have_no_cycle};
use std::alloc::Global;

/// The unit, which some text spells, as a program whose root has this name, or why it is none. The unit is given up.
/// Takes memory for the names, the scopes around each place, and the calls.
pub fn check(alloc: Global, unit: CUnit, root: &str) -> Result<CProgram, CFault>
    requires { IsSpelled (unit_of unit) }
    ensures passes { OnOk result (PassesChecks (unit_of unit) root.now) }
    ensures unchanged { IfOk result (λ program. (program.unit ≡ unit) × (program.root ≡ root.now)) }
    ensures told { IfErr result (λ fault. IsTold (unit_of unit) root.now fault) }
{
    match check_parts(alloc, &unit, root.as_bytes()) {
        Ok(()) => match Name::new(alloc, root.as_bytes()) {
            Ok(name) => Ok(CProgram::new(unit, name)),
            Err(_) => Err(CFault::Memory),
        },
        Err(fault) => Err(fault),
    }
}

// That nothing is wrong.
fn check_parts(alloc: Global, unit: &CUnit, root: &[u8]) -> Result<(), CFault>
    ensures passes { OnOk result (PassesChecks (unit_of unit.now) root.now) }
    ensures told { IfErr result (λ fault. IsTold (unit_of unit.now) root.now fault) }
{
    let Ok(functions) = Definitions::of(alloc, unit) else {
        return Err(CFault::Memory);
    };
    if let Err(fault) = check_text(alloc, &functions, unit) {
        return Err(fault);
    }
    if let Err(fault) = check_calls(alloc, &functions, unit) {
        return Err(fault);
    }
    check_root(alloc, &functions, unit, root)
}

// That nothing is wrong in the text.
fn check_text(alloc: Global, functions: &Definitions<'_>, unit: &CUnit) -> Result<(), CFault>
    requires words { functions.now.words ≡ (unit_of unit.now).words }
    requires names { functions.now.names ≡ definitions (unit_of unit.now).externals }
    ensures sound { OnOk result (faults_in (unit_of unit.now) ≡ []) }
    ensures told { IfErr result (λ fault. (root : List ℕ) → IsTold (unit_of unit.now) root fault) }
{
    match check_unit(alloc, functions, unit) {
        Ok(()) => Ok(()),
        Err(Stop::Fault(fault)) => Err(told(alloc, unit, fault)),
        Err(Stop::Memory) => Err(CFault::Memory),
    }
}

// That no calls lead from a function back to it, as ranks of the functions show.
fn check_calls(alloc: Global, functions: &Definitions<'_>, unit: &CUnit) -> Result<(), CFault>
    requires words { functions.now.words ≡ (unit_of unit.now).words }
    requires names { functions.now.names ≡ definitions (unit_of unit.now).externals }
    requires sound { faults_in (unit_of unit.now) ≡ [] }
    ensures ranked { OnOk result ((ranks : List ℕ) × IsRanked (calls_of (unit_of unit.now)) ranks) }
    ensures acyclic { OnOk result (HasNoCycle (unit_of unit.now)) }
    ensures told { IfErr result (λ fault. (root : List ℕ) → IsTold (unit_of unit.now) root fault) }
{
    ranked_calls_have_no_cycle();
    match function_ranks(alloc, functions, unit) {
        Ok(_ranks) => Ok(()),
        Err(CallFault::Cycle(path)) => match names_along(alloc, functions, &path) {
            Ok(names) => Err(CFault::Recursion(names)),
            Err(_) => Err(CFault::Memory),
        },
        Err(CallFault::Memory) => Err(CFault::Memory),
    }
}

// That the root is defined.
fn check_root(
    alloc: Global,
    functions: &Definitions<'_>,
    unit: &CUnit,
    root: &[u8],
) -> Result<(), CFault>
    requires words { functions.now.words ≡ (unit_of unit.now).words }
    requires names { functions.now.names ≡ definitions (unit_of unit.now).externals }
    requires sound { faults_in (unit_of unit.now) ≡ [] }
    requires acyclic { HasNoCycle (unit_of unit.now) }
    ensures rooted { OnOk result (has_root (unit_of unit.now) root.now ≡ true) }
    ensures told { IfErr result (λ fault. IsTold (unit_of unit.now) root.now fault) }
{
    match functions.number_named(root) {
        Some(_) => Ok(()),
        None => match Name::new(alloc, root) {
            Ok(name) => Err(CFault::Root(name)),
            Err(_) => Err(CFault::Memory),
        },
    }
}
