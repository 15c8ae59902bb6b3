//! How often each node may be there.

ghost use Rattle.std.specs.Prelude.{◌≡◌, ◌<◌, ℕ, length, position, count_by, slice_index, IfOk};
ghost use Rattle.domain_core.specs.Outlines.{shape_of};
ghost use Rattle.ipet_rows.specs.Shaped.{FitOutline};
ghost use Rattle.report_objections.specs.Shaping.{tells_total as tells_total_of};
ghost use Rattle.report_objections.specs.CountLaws.{most_of};
ghost use Rattle.run_replays.specs.Tests.{with_line};

use domain_core::Outline;
use flow_facts::Fact;
use std::alloc::{AllocError, Global};

/// How often each node may be there in a run: as often as its `total` line says, and never where it has a `dead` line.
pub fn allowed(alloc: Global, outline: &Outline, facts: &[Fact]) -> Result<Vec<u32>, AllocError>
    requires fit { FitOutline (shape_of outline.now) facts.now }
    requires once { (n : ℕ) → n < length outline.now.nodes → count_by (λ f. tells_total_of n f) facts.now ≡ 1 }
    ensures long { IfOk result (λ visits. length visits.items ≡ length outline.now.nodes) }
    ensures most { IfOk result
        (λ visits. (n : ℕ) → n < length outline.now.nodes → slice_index visits.items n ≡ most_of n facts.now) }
{
    let mut visits = vec![in alloc; 0u32; outline.node_count() as usize]?;
    for fact in facts {
        allow(&mut visits, fact);
    }
    Ok(visits)
}

// Takes in what one line says.
fn allow(visits: &mut Vec<u32>, fact: &Fact)
    ensures { visits.new.items ≡ with_line visits.old.items fact.now }
{
    if let Fact::Total(n, _, high) = *fact {
        if (n as usize) < visits.len() {
            visits[n as usize] = high;
        }
    }
}

/// The place of the `dead` or `total` line of the node among the facts, from 0.
pub fn place_of_line(facts: &[Fact], node: u32) -> Option<usize>
    ensures { result ≡ position (λ f. tells_total_of node f) facts.now }
{
    facts.iter().position(|fact| tells_total(node, fact))
}

// Whether the line is the `dead` or the `total` line of the node.
fn tells_total(node: u32, fact: &Fact) -> bool
    ensures { result ≡ tells_total_of node fact.now }
{
    match *fact {
        Fact::Dead(other) => node == other,
        Fact::Total(other, _, _) => node == other,
        _ => false,
    }
}
