//! The next node of a row.

ghost use Rattle.std.specs.Prelude.{◌<◌, ◌≤◌, ℕ, length, All, IfNone, IfSome, slice_index};
ghost use Rattle.graph_walks.specs.MarkedNodes.{IsMarked};
ghost use Rattle.graph_walks.specs.Searching.{IsFresh};

/// The place of the first node without a mark in the row, from this place on.
pub fn fresh_place(row: &[u32], marks: &[bool], first: usize) -> Option<usize>
    requires { All (λ n. n < length marks.now) row.now }
    ensures none { IfNone result
        ((k : ℕ) → first ≤ k → k < length row.now → IsMarked marks.now (slice_index row.now k)) }
    ensures some { IfSome result (IsFresh row.now marks.now first) }
{
    for place in first..row.len() {
        if !marks[row[place] as usize] {
            return Some(place);
        }
    }
    None
}
