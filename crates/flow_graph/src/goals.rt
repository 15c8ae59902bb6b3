//! Where a node leads.

ghost use Rattle.std.specs.Prelude.{◌≡◌, ◌<◌, ◌↔◌, ℕ, [], ◌∷◌, ◌++◌, length, reverse, Contains, AllPairs, IfOk, Some};
ghost use Rattle.std.specs.Prelude.{None};
ghost use Rattle.alf_check.specs.CheckedPrograms.{seen};
ghost use Rattle.flow_graph.specs.Nodes.{IsKeptNode, IsTarget, callee_of, ending_at, function_at};
ghost use Rattle.flow_graph.specs.Paths.{IsCallPath, IsCall, next_of};
ghost use Rattle.flow_graph.specs.Places.{node_of};
ghost use Rattle.flow_graph.specs.Goals.{AreGoals, GoalsHave, GoesBack, GoesToTargets};

use crate::place::Place;
use alf_check::{BlockEnd, Checked};
use std::alloc::{AllocError, Global};

/// Nodes of one instance of a function: its call path from the root on, and blocks of it, none
/// standing for its entry.
#[derive(Drop)]
pub struct Goals {
    pub path: Vec<u32>,
    pub blocks: Vec<Option<u32>>,
}

/// The function to which a call path leads.
pub fn function_at(checked: &Checked, path: &[u32]) -> u32
    requires { IsCallPath (seen checked.now) (reverse path.now) }
    ensures function { result ≡ function_at (seen checked.now) (reverse path.now) }
    ensures there { result < length (seen checked.now).funcs }
{
    match path.split_last() {
        None => checked.root(),
        Some((block, callers)) => called(checked, function_at(checked, callers), *block),
    }
}

/// The function that a block calls.
pub fn called(checked: &Checked, func: u32, block: u32) -> u32
    requires func { func < length (seen checked.now).funcs }
    requires call { IsCall (seen checked.now) func block }
    ensures called { result ≡ callee_of (ending_at (seen checked.now) func block) }
    ensures there { result < length (seen checked.now).funcs }
{
    checked.keeps();
    match &checked.block(func, block).end {
        BlockEnd::Call { func, .. } => *func,
        _ => unreachable!(),
    }
}

// The block after a call.
fn after_call(checked: &Checked, func: u32, block: u32) -> u32
    requires func { func < length (seen checked.now).funcs }
    requires call { IsCall (seen checked.now) func block }
    ensures { result ≡ next_of (ending_at (seen checked.now) func block) }
{
    checked.keeps();
    match &checked.block(func, block).end {
        BlockEnd::Call { next, .. } => *next,
        _ => unreachable!(),
    }
}

/// Where a node leads: to nodes of one instance, each once, in their order, or to the end, which is
/// `None`. Takes time linear in the call path and in the targets of a switch, but for their sort.
pub fn leads_from(
    alloc: Global,
    checked: &Checked,
    place: &Place,
) -> Result<Option<Goals>, AllocError>
    requires { IsKeptNode (seen checked.now) (node_of place.now) }
    ensures { IfOk result (λ goals. AreGoals (seen checked.now) (node_of place.now) goals) }
{
    checked.keeps();
    let path = place.path.as_slice();
    let Some(block) = place.block else {
        return Ok(Some(one(alloc, path, Some(0))?));
    };
    let func = function_at(checked, path);
    match &checked.block(func, block).end {
        BlockEnd::Fall(next) => Ok(Some(one(alloc, path, Some(*next))?)),
        BlockEnd::Jump(to) => Ok(Some(one(alloc, path, Some(*to))?)),
        BlockEnd::Switch(_, targets, others) => Ok(Some(targeted(alloc, path, targets, *others)?)),
        BlockEnd::Call { .. } => Ok(Some(entered(alloc, path, block)?)),
        BlockEnd::Return(_) => Ok(back(alloc, checked, path)?),
    }
}

// One node alone.
fn one(alloc: Global, path: &[u32], block: Option<u32>) -> Result<Goals, AllocError>
    ensures { IfOk result (λ goals. GoalsHave goals path.now (block ∷ [])) }
{
    let path = path.to_vec(alloc)?;
    let mut blocks = Vec::new(alloc);
    blocks.push(block)?;
    Ok(Goals { path, blocks })
}

// The entry of the function that the block calls.
fn entered(alloc: Global, path: &[u32], block: u32) -> Result<Goals, AllocError>
    ensures { IfOk result (λ goals. GoalsHave goals (path.now ++ block ∷ []) (None ∷ [])) }
{
    let mut path = path.to_vec(alloc)?;
    path.push(block)?;
    let mut blocks = Vec::new(alloc);
    blocks.push(None)?;
    Ok(Goals { path, blocks })
}

// The block after the call that a path ends with, or the end.
fn back(alloc: Global, checked: &Checked, path: &[u32]) -> Result<Option<Goals>, AllocError>
    requires { IsCallPath (seen checked.now) (reverse path.now) }
    ensures { IfOk result (λ goals. GoesBack (seen checked.now) (reverse path.now) goals) }
{
    match path.split_last() {
        None => Ok(None),
        Some((block, callers)) => {
            let next = after_call(checked, function_at(checked, callers), *block);
            Ok(Some(one(alloc, callers, Some(next))?))
        }
    }
}

// The blocks to which a switch leads.
fn targeted(
    alloc: Global,
    path: &[u32],
    targets: &[(u64, u32)],
    others: u32,
) -> Result<Goals, AllocError>
    ensures { IfOk result (λ goals. GoesToTargets goals path.now targets.now others) }
{
    let numbers = target_blocks(alloc, targets, others)?;
    let path = path.to_vec(alloc)?;
    let mut blocks = Vec::new(alloc);
    for number in numbers.iter() {
        blocks.push(Some(*number))?;
    }
    Ok(Goals { path, blocks })
}

// The numbers of these blocks, each once, in their order.
fn target_blocks(alloc: Global, targets: &[(u64, u32)], others: u32) -> Result<Vec<u32>, AllocError>
    ensures each { IfOk result (λ numbers. (to : ℕ) → Contains numbers.items to ↔ IsTarget targets.now others to) }
    ensures ascends { IfOk result (λ numbers. AllPairs (λ (a b : ℕ). a < b) numbers.items) }
{
    let mut numbers = Vec::new(alloc);
    numbers.push(others)?;
    for target in targets {
        numbers.push(target.1)?;
    }
    numbers.sort_unstable();
    numbers.dedup();
    Ok(numbers)
}
