//! The numbers that have a key, from one to the next.

ghost use Rattle.std.specs.Prelude.{◌≡◌, ℕ, ◌+◌, ◌-◌, ◌^◌, ◌<◌, length, Some, IfOk, true, slice_index};
ghost use Rattle.recorder_rules.specs.TallyRules.{key_at, is_at};
ghost use Rattle.flow_recorders.specs.Chained.{IsNext, KeysBelow, IsChainedFrom, linked_first, linked_next};

use std::alloc::{AllocError, Global};
use std::marker::Model;

/// Keys of the numbers from 0 on, and for each key the numbers that have it, in ascending order.
#[derive(Drop)]
pub struct Chains {
    keys: Vec<Option<u32>>,
    first: Vec<u32>,
    next: Vec<u32>,
}

impl Model for Chains {
    ghost use Rattle.std.specs.Prelude.{List, Option, ℕ};
    ghost use Rattle.flow_recorders.specs.Chained.{IsChained};

    ghost Value = { List (Option ℕ) };

    ghost view = { λ chains. chains.keys.items };

    ghost invariant = { λ chains. IsChained chains.keys.items chains.first.items chains.next.items };
}

impl Chains {
    /// The least number that has the key, or how many numbers there are.
    pub fn first_of(&self, key: u32) -> usize
        ensures { IsNext self.now key 0 result }
    {
        if (key as usize) < self.first.len() {
            self.first[key as usize] as usize
        } else {
            self.keys.len()
        }
    }

    /// The next number that has the key of this one, or how many numbers there are.
    pub fn after(&self, i: usize) -> usize
        requires { i < length self.now }
        ensures { (k : ℕ) → is_at (key_at self.now i) k ≡ true → IsNext self.now k (i + 1) result }
    {
        self.next[i] as usize
    }
}

/// Puts the number before the others that have its key.
fn link(first: &mut [u32], next: &mut [u32], i: u32, key: Option<u32>)
    requires low { i < length next.old }
    requires key { (k : ℕ) → key ≡ Some k → k < length first.old }
    ensures first { first.new ≡ linked_first first.old i key }
    ensures next { next.new ≡ linked_next first.old next.old i key }
{
    if let Some(k) = key {
        next[i as usize] = first[k as usize];
        first[k as usize] = i;
    }
}

/// Puts each number before those that have its key, from the last on.
fn link_all(first: &mut [u32], next: &mut [u32], keys: &[Option<u32>])
    requires keys { KeysBelow keys.now (length first.old) }
    requires few { length keys.now < 2 ^ 32 }
    requires same_length { length next.old ≡ length keys.now }
    requires empty { (k : ℕ) → k < length first.old → slice_index first.old k ≡ length keys.now }
    ensures { IsChainedFrom keys.now 0 first.new next.new }
{
    let mut i = keys.len();
    while i > 0 {
        i -= 1;
        link(first, next, i as u32, keys[i]);
    }
}

/// The chains of these keys, all below `count`.
pub fn chained(alloc: Global, keys: Vec<Option<u32>>, count: usize) -> Result<Chains, AllocError>
    requires keys { KeysBelow keys.items count }
    requires few { length keys.items < 2 ^ 32 }
    ensures { IfOk result (λ chains. chains ≡ keys.items) }
{
    let end = keys.len() as u32;
    let mut first = vec![in alloc; end; count]?;
    let mut next = vec![in alloc; end; keys.len()]?;
    link_all(&mut first, &mut next, &keys);
    Ok(Chains { keys, first, next })
}
