//! Ranks of functions.

ghost use Rattle.std.specs.Prelude.{◌<◌, ◌^◌, length, IfOk, IfErr};
ghost use Rattle.graph_walks.specs.Calls.{CallsWithin, IsRanked, IsFaultOf, calls_of};

use crate::fault::CallFault;
use crate::finding::{Finding, finding_of};
use std::alloc::Global;

/// A rank for each function, so that each call leads from a higher rank to a lower one.
///
/// `calls` has for each function the numbers of those that it calls, repeats allowed. The rank is
/// the count of other functions that calls lead to. What each function reaches is marked, the least
/// function first, and the first that is called from there ends all: this takes time linear in
/// functions and calls for each function, and memory linear in functions.
pub fn call_ranks(alloc: Global, calls: &[Vec<u32>]) -> Result<Vec<u32>, CallFault>
    requires within { CallsWithin (calls_of calls.now) }
    requires count { length calls.now < 2 ^ 32 }
    ensures ranked { IfOk result (λ ranks. IsRanked (calls_of calls.now) ranks.items) }
    ensures cycle { IfErr result (λ fault. IsFaultOf (calls_of calls.now) fault) }
{
    let mut ranks = Vec::new(alloc);
    for function in 0..calls.len() as u32 {
        match finding_of(alloc, calls, function) {
            Ok(Finding::Rank(rank)) => {
                if ranks.push(rank).is_err() {
                    return Err(CallFault::Memory);
                }
            }
            Ok(Finding::Cycle(path)) => return Err(CallFault::Cycle(path)),
            Err(_) => return Err(CallFault::Memory),
        }
    }
    Ok(ranks)
}
