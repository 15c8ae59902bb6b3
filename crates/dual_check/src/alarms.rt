//! The nodes at which some fact is an alarm, in one walk through the facts.

ghost use Rattle.std.specs.Prelude.{◌≡◌, ◌==◌, ◌<◌, ◌||◌, ℕ, false, IfOk, length, get_or};
ghost use Rattle.ipet_rows.specs.Columns.{is_alarm_at, has_alarm};

use flow_facts::Fact;
use std::alloc::{AllocError, Global};

/// So many nodes without a mark.
#[tactic(auto, using(crate::proofs::MarkedNodes::none_more))]
fn no_marks(alloc: Global, count: u32) -> Result<Vec<bool>, AllocError>
    ensures { IfOk result (λ marks. (length marks.items ≡ count) × ((n : ℕ) → get_or marks.items n false ≡ false)) }
{
    let mut marks = Vec::new(alloc);
    for node in 0..count {
        let _ = node;
        marks.push(false)?;
    }
    Ok(marks)
}

/// Marks a node.
#[tactic(auto, using(crate::proofs::MarkedNodes::marked, crate::proofs::MarkedNodes::past))]
fn mark(marks: &mut [bool], node: u32)
    ensures count { length marks.new ≡ length marks.old }
    ensures marks { (n : ℕ) → n < length marks.old
        → get_or marks.new n false ≡ (get_or marks.old n false || n == node) }
{
    if (node as usize) < marks.len() {
        marks[node as usize] = true;
    }
}

/// Marks the node of an alarm.
#[tactic(auto, using(crate::proofs::MarkedNodes::same))]
fn mark_alarm(marks: &mut [bool], fact: Fact)
    ensures count { length marks.new ≡ length marks.old }
    ensures marks { (n : ℕ) → n < length marks.old
        → get_or marks.new n false ≡ (get_or marks.old n false || is_alarm_at n fact) }
{
    match fact {
        Fact::Alarm(node, _) => mark(marks, node),
        _ => {}
    }
}

/// For each node whether some fact is an alarm at it.
#[tactic(auto, using(crate::proofs::MarkedNodes::alarms_begun, crate::proofs::MarkedNodes::alarms_more, crate::proofs::MarkedNodes::alarms_all))]
pub fn alarms(alloc: Global, nodes: u32, facts: &[Fact]) -> Result<Vec<bool>, AllocError>
    ensures count { IfOk result (λ marks. length marks.items ≡ nodes) }
    ensures marks { IfOk result (λ marks. (n : ℕ) → n < nodes → get_or marks.items n false ≡ has_alarm facts.now n) }
{
    let mut marks = no_marks(alloc, nodes)?;
    let slots = marks.as_mut_slice();
    let mut rest = facts;
    while let Some((fact, others)) = rest.split_first() {
        mark_alarm(slots, *fact);
        rest = others;
    }
    Ok(marks)
}
