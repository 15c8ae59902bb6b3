//! The meaning of the TOML files: which cells an inputs file gives a run, and their ranges; what each
//! block costs by a costs file; which numbers a values file gives one run; which tasks a tasks file
//! tells.
//!
//! The text is read by the kit's `toml`, and what its table means is a definition over the members of
//! the document. Each refusal names the entry of the first fault.
#![tactic(auto)]

// The document, and why a file is refused.
mod document;
mod fault;
mod keys;

// Inputs: entries, their frames, the bytes that are taken, and all rows.
mod frames;
mod input_entry;
mod input_rows;
mod row_list;
mod taken;

// Costs: entries, and the costs of all blocks.
mod block_costs;
mod blocks;
mod cost_entry;
mod cost_rows;

// Tasks: entries, and all tasks.
mod task_entry;
mod task_list;
mod task_set;

// Values: the numbers of one run.
mod run_values;

// What every file keeps.
mod laws;
mod worked;

pub use block_costs::Costs;
pub use cost_rows::costs;
pub use fault::TableFault;
pub use input_rows::inputs;
pub use laws::{a_file_has_one_answer, a_tasks_file_has_one_answer, a_values_file_has_one_answer};
pub use run_values::values;
pub use task_list::tasks;
pub use task_set::Task;
pub use worked::{
    blocks_cost_what_the_table_says, globals_and_arguments_are_inputs, keys_have_their_kinds,
    names_of_tasks_are_printed, ranges_have_the_words_of_their_size,
    tasks_have_the_numbers_of_their_keys, the_last_entry_tells_a_cost, values_stand_in_their_order,
};
