//! The count bound.

ghost use Rattle.std.specs.Prelude.{◌≡◌, ◌<◌, ◌^◌, ◌*◌, length, slice_index};
ghost use Rattle.report_soundness.specs.ReportTold.{greatest_total, costs_of, count_bound};
ghost use Rattle.flow_gathering.specs.Gathering.{found_in, IsSized};

use domain_core::Outline;
use flow_gathering::Collected;

// The greatest total of a node that was stepped, and 0 of any other.
fn greatest(found: &Collected, node: u32) -> u32
    requires stepped { node < length found.now.stepped.items }
    requires totals { node < length found.now.books.now.first.first }
    ensures { result ≡ greatest_total (found_in found.now) node }
{
    if !found.stepped[node as usize] {
        return 0;
    }
    match found.books.first.first.total_of(node) {
        Some((_, high)) => high,
        None => 0,
    }
}

// What a visit of a node costs.
fn cost_at(outline: &Outline, node: u32) -> u32
    requires { node < length outline.now.nodes }
    ensures { result ≡ slice_index (costs_of outline.now) node }
{
    outline.node(node).cost
}

// What all visits of a node cost at most.
fn most_cost(outline: &Outline, found: &Collected, node: u32) -> u64
    requires sized { IsSized outline.now (found_in found.now) }
    requires node { node < length outline.now.nodes }
    ensures { result ≡ slice_index (costs_of outline.now) node * greatest_total (found_in found.now) node }
{
    u64::from(cost_at(outline, node)) * u64::from(greatest(found, node))
}

/// Each node's cost times its greatest total, added up.
pub fn bound(outline: &Outline, found: &Collected) -> u64
    requires sized { IsSized outline.now (found_in found.now) }
    requires room { count_bound outline.now (found_in found.now) < 2 ^ 64 }
    ensures { result ≡ count_bound outline.now (found_in found.now) }
{
    let mut sum: u64 = 0;
    for n in 0..outline.node_count() {
        sum += most_cost(outline, found, n);
    }
    sum
}
