//! Costs of blocks.

ghost use Rattle.std.specs.Prelude.{◌≡◌, ◌<◌, ℕ, [], map, length, IfOk};
ghost use Rattle.alf_check.specs.CheckedPrograms.{seen};
ghost use Rattle.cost_table.specs.CostTables.{CostTable, cost_at, one_each, row_at, with_cost};
ghost use Rattle.cost_table.specs.Costs.{IsCostTable};

use alf_check::Checked;
use std::alloc::{AllocError, Global};
use std::marker::Model;

/// A cost for each block of each function. Contracts see it as a `CostTable`.
#[derive(Drop)]
pub struct Costs {
    rows: Vec<Vec<u32>>,
    others: u32,
}

impl Model for Costs {
    ghost use Rattle.std.specs.Prelude.{map};
    ghost use Rattle.cost_table.specs.CostTables.{CostTable};

    ghost Value = { CostTable };

    ghost view = { λ costs. record {
      rows = map (λ row. row.items) costs.rows.items;
      others = costs.others;
    } };
}

impl Costs {
    /// The costs where no file is named: every block costs 1. Takes no memory.
    pub fn ones(alloc: Global) -> Costs
        ensures table { result ≡ one_each }
        ensures ones { (f b : ℕ) → cost_at result f b ≡ 1 }
    {
        Costs {
            rows: Vec::new(alloc),
            others: 1,
        }
    }

    /// The cost of a block of a function, by their numbers. A block that is not there has that of a
    /// block of which no entry speaks. Takes no memory.
    pub fn of(&self, func: u32, block: u32) -> u32
        ensures { result ≡ cost_at self.now func block }
    {
        let Some(row) = self.rows.get(func as usize) else {
            return self.others;
        };
        match row.get(block as usize) {
            Some(cost) => *cost,
            None => self.others,
        }
    }

    // Every block of the program has this cost.
    pub(crate) fn alike(alloc: Global, checked: &Checked, others: u32) -> Result<Costs, AllocError>
        ensures { IfOk result (λ costs. IsCostTable (seen checked.now) others [] costs) }
    {
        let mut rows = Vec::new(alloc);
        for func in 0..checked.func_count() {
            let row = vec![in alloc; others; checked.block_count(func) as usize]?;
            rows.push(row)?;
        }
        Ok(Costs { rows, others })
    }

    // Gives the block this cost.
    pub(crate) fn set(&mut self, func: u32, block: u32, cost: u32)
        requires func { func < length self.old.rows }
        requires block { block < length (row_at self.old func) }
        ensures { self.new ≡ with_cost self.old func block cost }
    {
        let row = &mut self.rows[func as usize];
        row[block as usize] = cost;
    }
}
