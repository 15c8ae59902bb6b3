//! Labels of a switch, as code sees them.

ghost use Rattle.std.specs.Prelude.{◌≡◌, ◌+◌, ℕ, List, if◌then◌else◌};
ghost use Rattle.alf_program.specs.Tree.{BodyItem};
ghost use Rattle.c_unit.specs.declared.types.Integer.{Integer};
ghost use Rattle.c_unit.specs.Tree.{Statements, Then, statement_of};
ghost use Rattle.c_lowered.specs.Conditions.{Within, label};
ghost use Rattle.c_lowered.specs.Statements as laws;
ghost use Rattle.statement_lowering.specs.SwitchMarks.{labels_by, targets_by, default_by, case_by};

use c_unit::{Constant, Stmt};

/// What a statement is to the switch in whose body it stands.
#[derive(Clone, Copy, Debug)]
pub enum Mark {
    /// A `case`, with its constant.
    Case(Constant),
    /// A `default`.
    Default,
    /// No label.
    Neither,
}

/// What a statement is to the switch in whose body it stands.
pub fn mark_of(statement: &Stmt) -> Mark
    ensures count { laws.is_case (statement_of statement.now) ≡ labels_by result }
    ensures targets { (within : Within) (i : Integer) (k : ℕ) (others : Statements)
        → laws.targets_in within i k (Then (statement_of statement.now) others)
        ≡ targets_by result within i k (laws.targets_in within i (labels_by result + k) others) }
    ensures default { (within : Within) (k otherwise : ℕ) (others : Statements)
        → laws.default_in within k otherwise (Then (statement_of statement.now) others)
        ≡ default_by result (label within k) (laws.default_in within (labels_by result + k) otherwise others) }
    ensures items { (within : Within) (k : ℕ) (items : List BodyItem)
        → laws.if_case within (statement_of statement.now) k items ≡ case_by result within k items }
{
    match statement {
        Stmt::Case(_, constant) => Mark::Case(*constant),
        Stmt::Default(_) => Mark::Default,
        Stmt::Empty(_) => Mark::Neither,
        Stmt::Declare(_, _, _) => Mark::Neither,
        Stmt::Block(_) => Mark::Neither,
        Stmt::If(_, _, otherwise) => match otherwise {
            None => Mark::Neither,
            Some(_) => Mark::Neither,
        },
        Stmt::While(_, _) => Mark::Neither,
        Stmt::Do(_, _) => Mark::Neither,
        Stmt::For(first, _, _, _) => match first {
            None => Mark::Neither,
            Some(_) => Mark::Neither,
        },
        Stmt::Switch(_, _) => Mark::Neither,
        Stmt::Break(_) => Mark::Neither,
        Stmt::Continue(_) => Mark::Neither,
        Stmt::Return(_, _) => Mark::Neither,
        Stmt::Effect(_) => Mark::Neither,
    }
}

/// How many labels it allocates.
pub fn labels_of(mark: Mark) -> u64
    ensures { result ≡ labels_by mark }
{
    match mark {
        Mark::Case(_) => 1,
        Mark::Default => 1,
        Mark::Neither => 0,
    }
}

/// Whether it is a `default`.
pub fn is_default(mark: Mark) -> bool
    ensures { (here others : List ℕ) → default_by mark here others ≡ (if result then here else others) }
{
    match mark {
        Mark::Case(_) => false,
        Mark::Default => true,
        Mark::Neither => false,
    }
}
