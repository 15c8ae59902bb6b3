//! The costs of a costs file.

ghost use Rattle.std.specs.Prelude.{◌≡◌, ◌≢◌, ◌++◌, ◌∷◌, ℕ, List, [], map, IfOk, IfErr, IfSome, IfNone, OnOk, Some};
ghost use Rattle.std.specs.Prelude.{None};
ghost use Rattle.toml.specs.Data.{Data};
ghost use Rattle.toml.specs.View.{table_view, view};
ghost use Rattle.alf_check.specs.CheckedPrograms.{seen};
ghost use Rattle.cost_table.specs.declared.fault.TableFault.TheVariants.{Memory};
ghost use Rattle.cost_table.specs.Entries.{AllRight, IsFirstFault};
ghost use Rattle.cost_table.specs.CostTables.{HasRows};
ghost use Rattle.cost_table.specs.Costs.{default_cost, cost_entries, cost_judging, IsCostTable, IsRightCost};
ghost use Rattle.cost_table.specs.Costs.{IsWrongCost, MeansCosts, RefusesCosts};

use crate::block_costs::Costs;
use crate::blocks::block_named;
use crate::cost_entry::{cost_entry, cost_of, default_cost, has_cost_top};
use crate::document::document;
use crate::fault::TableFault;
use crate::keys::{entries_at, entry_count, nth};
use alf_check::Checked;
use std::alloc::Global;
use toml::{Table, Value};

/// The costs of a costs file for a program: each block has that of the last entry that speaks of it, or
/// the default.
///
/// `default` is 1 where it is absent. `[[cost]]` entries have `function`, a text, and `block` and `cost`,
/// whole numbers. A cost is 0 to 4,294,967,295.
///
/// 2^32 entries or more are want of memory. Takes time linear in the file and in the blocks of the program.
pub fn costs(alloc: Global, bytes: &[u8], checked: &Checked) -> Result<Costs, TableFault>
    ensures means { IfOk result (λ costs. MeansCosts bytes.now (seen checked.now) costs) }
    ensures refused { IfErr result (λ fault. fault ≢ Memory → RefusesCosts bytes.now (seen checked.now) fault) }
{
    let table = match document(alloc, bytes) {
        Ok(table) => table,
        Err(fault) => return Err(fault),
    };
    let Some((default, values)) = entries(&table) else {
        return Err(TableFault::Key(None));
    };
    match all_costs(alloc, checked, default, values) {
        Ok(costs) => Ok(costs),
        Err(fault) => Err(fault),
    }
}

// The cost of a block of which no entry speaks, and the entries, if only these stand at the top.
#[tactic(auto, using(crate::proofs::Seen::only_keys_all))]
fn entries(table: &Table) -> Option<(u32, &[Value])>
    ensures default { IfSome result (λ told. default_cost (table_view table.now) ≡ Some told.0) }
    ensures entries { IfSome result (λ told. cost_entries (table_view table.now) ≡ Some (map view told.1.now)) }
    ensures none { IfNone result (cost_entries (table_view table.now) ≡ None) }
{
    if !has_cost_top(table) {
        return None;
    }
    let default = default_cost(table)?;
    let values = entries_at(table, "cost")?;
    Some((default, values))
}

// The costs of all entries.
fn all_costs(
    alloc: Global,
    checked: &Checked,
    default: u32,
    values: &[Value],
) -> Result<Costs, TableFault>
    ensures right { OnOk result (AllRight (cost_judging (seen checked.now)) (map view values.now)) }
    ensures all { IfOk result (λ costs. IsCostTable (seen checked.now) default (map view values.now) costs) }
    ensures first { IfErr result
        (λ fault. fault ≢ Memory → IsFirstFault (cost_judging (seen checked.now)) (map view values.now) fault) }
{
    let Some(count) = entry_count(values) else {
        return Err(TableFault::Memory);
    };
    let mut costs = Costs::alike(alloc, checked, default)?;
    for place in 0..count {
        if let Err(fault) = add_cost(checked, nth(values, place), place, &mut costs) {
            return Err(fault);
        }
    }
    Ok(costs)
}

// Gives the block of an entry its cost.
fn add_cost(
    checked: &Checked,
    value: &Value,
    place: u32,
    costs: &mut Costs,
) -> Result<(), TableFault>
    requires { HasRows (seen checked.now) costs.old }
    ensures right { OnOk result (IsRightCost (seen checked.now) (view value.now)) }
    ensures more { OnOk result
        ((default : ℕ) (before : List Data) → IsCostTable (seen checked.now) default before costs.old
        → IsCostTable (seen checked.now) default (before ++ view value.now ∷ []) costs.new) }
    ensures wrong { IfErr result
        (λ fault. fault ≢ Memory → IsWrongCost (seen checked.now) place (view value.now) fault) }
{
    let Some((name, told)) = cost_entry(value) else {
        return Err(TableFault::Key(Some(place)));
    };
    let Some(cost) = cost_of(told.cost) else {
        return Err(TableFault::Range(place));
    };
    let Some((func, block)) = block_named(checked, name, told) else {
        return Err(TableFault::NoSuchCell(place));
    };
    costs.set(func, block, cost);
    Ok(())
}
