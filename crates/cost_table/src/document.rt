//! The document that bytes are.

ghost use Rattle.std.specs.Prelude.{◌≡◌, ◌≢◌, IfOk, IfErr};
ghost use Rattle.toml.specs.Data.{Members};
ghost use Rattle.toml.specs.View.{table_view};
ghost use Rattle.cost_table.specs.Documents.{IsDocument};
ghost use Rattle.cost_table.specs.declared.fault.TableFault.TheVariants.{Toml, Memory};

use crate::fault::TableFault;
use std::alloc::Global;
use toml::Table;

// The document's table.
pub fn document(alloc: Global, bytes: &[u8]) -> Result<Table, TableFault>
    ensures read { IfOk result (λ table. IsDocument bytes.now (table_view table)) }
    ensures refused { IfErr result
        (λ fault. fault ≢ Memory → (fault ≡ Toml) × ((ms : Members) → ¬ IsDocument bytes.now ms)) }
{
    match toml::table_from_slice(alloc, bytes) {
        Ok(table) => Ok(table),
        Err(error) if error.is_memory() => Err(TableFault::Memory),
        Err(_) => Err(TableFault::Toml),
    }
}
