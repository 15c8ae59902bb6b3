//! What the definitions promise, as functions that do nothing when they are called.

ghost use Rattle.cost_table.specs.Laws.{InputsHaveOneAnswer, CostsHaveOneAnswer, RowsKeepTheRules, TasksHaveOneAnswer};
ghost use Rattle.cost_table.specs.Laws.{TasksAreTaskSets, ValuesHaveOneAnswer};

/// For a program an inputs file means one list of rows, or is refused for one fault, and not both; and a
/// costs file one table or one fault. The rows keep the rules that runs ask of rows. Does nothing when it
/// is called.
pub fn a_file_has_one_answer()
    ensures inputs { InputsHaveOneAnswer }
    ensures costs { CostsHaveOneAnswer }
    ensures keep { RowsKeepTheRules }
{}

/// For so many rows a values file means one list of numbers, or is refused for one fault, and not both. Does
/// nothing when it is called.
pub fn a_values_file_has_one_answer()
    ensures { ValuesHaveOneAnswer }
{}

/// A tasks file means one list of tasks, or is refused for one fault, and not both; and the tasks are a task
/// set. Does nothing when it is called.
pub fn a_tasks_file_has_one_answer()
    ensures tasks { TasksHaveOneAnswer }
    ensures keep { TasksAreTaskSets }
{}
