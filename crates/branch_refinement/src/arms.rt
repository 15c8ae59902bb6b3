//! Arms of switches.

ghost use Rattle.std.specs.Prelude.{◌≡◌, ◌++◌, ℕ, List, IfOk, IfSome, OnOk, All, Some};
ghost use Rattle.alf_check.specs.CheckedPrograms.{term_of};
ghost use Rattle.strided_rules.specs.Members.{only as only_of};
ghost use Rattle.memory_model.specs.KeptMemories.{memory_in, rows_of, IsMemory};
ghost use Rattle.transfer_rules.specs.Evaluating.{value_at};
ghost use Rattle.transfer_rules.specs.Stepping.{arms as arms_by_rule, without_all as without_all_of};
ghost use Rattle.step_statements.specs.Typed.{IsTyped};
ghost use Rattle.branch_refinement.specs.Refinements.{Refines};
ghost use Rattle.branch_refinement.specs.Arms.{seen_arms, arm_by, target_arms_by, arms_by as arms_by_words, goals_of};
ghost use Rattle.branch_refinement.specs.Arms.{IsArmOf};

use crate::pins::refined;
use crate::refinements::Told;
use crate::telling::told_by;
use abstract_memory::AMem;
use alf_check::Term;
use domain_core::Lattice;
use interval_congruence::Strided;
use pointer_domain::AVal;
use std::alloc::{AllocError, Global};

/// The words that are of no target.
fn without_all(words: Strided, targets: &[(u64, u32)]) -> Option<Strided>
    ensures value { result ≡ without_all_of (Some words) targets.now }
    ensures sized { IfSome result (λ rest. rest.size ≡ words.size) }
{
    let Some((target, others)) = targets.split_first() else {
        return Some(words);
    };
    let Some(rest) = words.without(target.0) else {
        return None;
    };
    without_all(rest, others)
}

/// The one word, where it is among these.
fn only(words: Strided, bits: u64) -> Option<Strided>
    ensures value { result ≡ only_of words bits }
    ensures sized { IfSome result (λ word. word.size ≡ words.size) }
{
    words.only(bits)
}

/// Adds an arm of the memory with these words, if it is there.
fn push_arm<'a>(
    alloc: Global,
    memory: AMem<'a>,
    told: &Told,
    to: u32,
    words: Strided,
    arms: &mut Vec<(u32, AMem<'a>)>,
) -> Result<(), AllocError>
    requires kept { IsMemory memory }
    requires fits { Refines (rows_of memory.checked) words.size told.now }
    requires arms { All (IsArmOf memory) arms.old.items }
    ensures arms { OnOk result (All (IsArmOf memory.entry) arms.new.items) }
    ensures pushed { OnOk result
        (seen_arms arms.new.items
        ≡ seen_arms arms.old.items ++ arm_by told.now (memory_in memory.entry) to (Some words)) }
{
    let own = refined(alloc, memory, told, words)?;
    let Some(own) = own else {
        return Ok(());
    };
    arms.push((to, own))?;
    Ok(())
}

/// Adds an arm of a copy of the memory with these words, if it is there.
fn push_copy<'a>(
    alloc: Global,
    memory: &AMem<'a>,
    told: &Told,
    to: u32,
    words: Strided,
    arms: &mut Vec<(u32, AMem<'a>)>,
) -> Result<(), AllocError>
    requires kept { IsMemory memory.now }
    requires fits { Refines (rows_of memory.now.checked) words.size told.now }
    requires arms { All (IsArmOf memory.now) arms.old.items }
    ensures arms { OnOk result (All (IsArmOf memory.now) arms.new.items) }
    ensures pushed { OnOk result
        (seen_arms arms.new.items
        ≡ seen_arms arms.old.items ++ arm_by told.now (memory_in memory.now) to (Some words)) }
{
    push_arm(alloc, memory.copy(alloc)?, told, to, words, arms)
}

/// Adds the default with the words that are of no target, if it is there.
fn push_default<'a>(
    alloc: Global,
    memory: AMem<'a>,
    told: &Told,
    default: (u32, Option<Strided>),
    arms: &mut Vec<(u32, AMem<'a>)>,
) -> Result<(), AllocError>
    requires kept { IsMemory memory }
    requires fits { IfSome default.1 (λ own. Refines (rows_of memory.checked) own.size told.now) }
    requires arms { All (IsArmOf memory) arms.old.items }
    ensures arms { OnOk result (All (IsArmOf memory.entry) arms.new.items) }
    ensures pushed { OnOk result
        (seen_arms arms.new.items
        ≡ seen_arms arms.old.items ++ arm_by told.now (memory_in memory.entry) default.0 default.1) }
{
    let (to, words) = default;
    let Some(words) = words else {
        return Ok(());
    };
    push_arm(alloc, memory, told, to, words, arms)
}

/// Adds the arms of the targets, in order, and then the default. The last arm has the memory, and others have copies.
fn push_arms<'a>(
    alloc: Global,
    memory: AMem<'a>,
    told: &Told,
    words: Strided,
    targets: &[(u64, u32)],
    default: (u32, Option<Strided>),
    arms: &mut Vec<(u32, AMem<'a>)>,
) -> Result<(), AllocError>
    requires kept { IsMemory memory }
    requires fits { Refines (rows_of memory.checked) words.size told.now }
    requires default { IfSome default.1 (λ own. Refines (rows_of memory.checked) own.size told.now) }
    requires arms { All (IsArmOf memory) arms.old.items }
    ensures arms { OnOk result (All (IsArmOf memory.entry) arms.new.items) }
    ensures pushed { OnOk result (seen_arms arms.new.items
        ≡ seen_arms arms.old.items
        ++ (target_arms_by told.now (memory_in memory.entry) words targets.now
        ++ arm_by told.now (memory_in memory.entry) default.0 default.1)) }
{
    let Some((target, others)) = targets.split_first() else {
        return push_default(alloc, memory, told, default, arms);
    };
    let Some(own) = only(words, target.0) else {
        return push_arms(alloc, memory, told, words, others, default, arms);
    };
    if others.is_empty() && default.1.is_none() {
        return push_arm(alloc, memory, told, target.1, own, arms);
    }
    push_copy(alloc, &memory, told, target.1, own, arms)?;
    push_arms(alloc, memory, told, words, others, default, arms)
}

/// The arms of a switch whose expression tells this: targets in order, then the default.
fn arms_by<'a>(
    alloc: Global,
    memory: AMem<'a>,
    told: &Told,
    words: Strided,
    targets: &[(u64, u32)],
    others: u32,
) -> Result<Vec<(u32, AMem<'a>)>, AllocError>
    requires kept { IsMemory memory }
    requires fits { Refines (rows_of memory.checked) words.size told.now }
    ensures each { IfOk result (λ arms. All (IsArmOf memory.entry) arms.items) }
    ensures arms { IfOk result
        (λ arms. seen_arms arms.items ≡ arms_by_words told.now (memory_in memory.entry) targets.now others words) }
{
    let mut arms = Vec::new(alloc);
    let rest = without_all(words, targets);
    push_arms(
        alloc,
        memory,
        told,
        words,
        targets,
        (others, rest),
        &mut arms,
    )?;
    Ok(arms)
}

/// The arms of a switch whose expression gives this value with these words: targets in order, then the default. Each
/// has its block and its memory; an arm without words, or with a side of which nothing is left, is absent.
pub fn switch_arms<'a>(
    alloc: Global,
    memory: AMem<'a>,
    value: &Term,
    given: &AVal,
    words: Strided,
    targets: &[(u64, u32)],
    others: u32,
) -> Result<Vec<(u32, AMem<'a>)>, AllocError>
    requires kept { IsMemory memory }
    requires typed { IsTyped (term_of value.now) }
    requires given { (value_at (rows_of memory.checked) (memory_in memory) (term_of value.now)).left ≡ Some given.now }
    requires words { given.now.words ≡ Some words }
    ensures each { IfOk result (λ arms. All (IsArmOf memory.entry) arms.items) }
    ensures arms { IfOk result (λ arms. (path : List ℕ) → goals_of path arms.items
        ≡ arms_by_rule (rows_of memory.entry.checked) (memory_in memory.entry) (term_of value.now) path targets.now
        others words) }
{
    let told = told_by(alloc, &memory, value, given)?;
    arms_by(alloc, memory, &told, words, targets, others)
}
