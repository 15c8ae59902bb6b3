//! Places of nodes, as the code keeps them.

ghost use Rattle.std.specs.Prelude.{◌≡◌, ◌<◌, AllPairs, IfOk, IfErr, slice_get, Some};
ghost use Rattle.flow_graph.specs.Numbering.{block_rank, node_cmp, IsBefore};
ghost use Rattle.std.specs.Ordering.{nat_cmp};
ghost use Rattle.flow_graph.specs.Places.{node_of, node_at, nodes_of, IsGap};

use std::cmp::Ordering;

/// A call path from the root on, and a block, or none at the entry.
#[derive(Drop)]
pub struct Place {
    pub path: Vec<u32>,
    pub block: Option<u32>,
}

// Which of two nodes comes first.
fn compare(place: &Place, path: &[u32], block: Option<u32>) -> Ordering
    ensures { result ≡ node_cmp (node_of place.now) (node_at path.now block) }
{
    match place.path.as_slice().cmp(path) {
        Ordering::Less => Ordering::Less,
        Ordering::Equal => compare_blocks(place.block, block),
        Ordering::Greater => Ordering::Greater,
    }
}

// Which of two blocks of a function comes first, where the entry comes before all.
#[tactic(auto, using(crate::proofs::Order::cmp_suc))]
fn compare_blocks(block: Option<u32>, other: Option<u32>) -> Ordering
    ensures { result ≡ nat_cmp (block_rank block) (block_rank other) }
{
    match (block, other) {
        (None, None) => Ordering::Equal,
        (None, Some(_)) => Ordering::Less,
        (Some(_), None) => Ordering::Greater,
        (Some(block), Some(other)) => block.cmp(&other),
    }
}

/// The number of a node among these, or else the number that it would have. Takes time logarithmic
/// in their count.
pub fn position(places: &[Place], path: &[u32], block: Option<u32>) -> Result<usize, usize>
    requires { AllPairs IsBefore (nodes_of places.now) }
    ensures found { IfOk result (λ at. slice_get (nodes_of places.now) at ≡ Some (node_at path.now block)) }
    ensures missing { IfErr result (λ at. IsGap (nodes_of places.now) (node_at path.now block) at) }
{
    let mut low = 0;
    let mut high = places.len();
    while low < high {
        let middle = low + (high - low) / 2;
        match compare(&places[middle], path, block) {
            Ordering::Less => low = middle + 1,
            Ordering::Equal => return Ok(middle),
            Ordering::Greater => high = middle,
        }
    }
    Err(low)
}
