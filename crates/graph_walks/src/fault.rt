/// Why functions have no ranks.
#[derive(Debug, Drop)]
pub enum CallFault {
    /// Calls lead from a function back to it. The path is its number, the functions that the
    /// calls go through, and its number again, so a function that calls itself is told as two
    /// numbers. It is the least function on any cycle.
    Cycle(Vec<u32>),
    /// Memory ran out.
    Memory,
}
