//! Items, cut into blocks.

ghost use Rattle.std.specs.Prelude.{◌≡◌, ◌<◌, ◌∷◌, map, length, IfOk};
ghost use Rattle.alf_program.specs.Tree.{item_of};
ghost use Rattle.alf_check.specs.Blocks.{begins_between, blocks_of, ends_block, is_label};
ghost use Rattle.alf_check.specs.Cut.{begins_after, first_length, number_after, numbers_along};

use crate::count::next_number;
use alf_program::{Item, Stmt};
use std::alloc::{AllocError, Global};

/// The items of the first block, and those after it.
#[tactic(auto, using(crate::proofs::Blocks::split_within))]
pub fn split_block(items: &[Item]) -> (&[Item], &[Item])
    requires { 0 < length items.now }
    ensures cut { blocks_of (map item_of items.now) ≡ map item_of result.0.now ∷ blocks_of (map item_of result.1.now) }
    ensures shorter { length result.1.now < length items.now }
{
    items.split_at(first_length(items))
}

// How many items the first block has.
fn first_length(items: &[Item]) -> usize
    ensures { result ≡ first_length (map item_of items.now) }
{
    for at in 0..items.len() {
        if begins_after(&items[at], &items[at + 1..]) {
            return at + 1;
        }
    }
    items.len()
}

/// For each item the number of its block.
pub fn numbers_along(alloc: Global, items: &[Item]) -> Result<Vec<u32>, AllocError>
    ensures { IfOk result (λ numbers. numbers.items ≡ numbers_along 0 (map item_of items.now)) }
{
    let mut numbers = Vec::new(alloc);
    let mut number = 0;
    let mut rest = items;
    while let Some((item, others)) = rest.split_first() {
        numbers.push(number)?;
        number = number_after(number, item, others)?;
        rest = others;
    }
    Ok(numbers)
}

// The number of the block of the next item.
fn number_after(number: u32, item: &Item, others: &[Item]) -> Result<u32, AllocError>
    ensures { IfOk result (λ after. after ≡ number_after number (item_of item.now) (map item_of others.now)) }
{
    if begins_after(item, others) {
        return next_number(number);
    }
    Ok(number)
}

// Whether a block begins after the item, where these follow it.
fn begins_after(item: &Item, others: &[Item]) -> bool
    ensures { result ≡ begins_after (item_of item.now) (map item_of others.now) }
{
    match others.first() {
        Some(next) => begins_between(item, next),
        None => false,
    }
}

// Whether a block begins between the item and the next one.
fn begins_between(item: &Item, next: &Item) -> bool
    ensures { result ≡ begins_between (item_of item.now) (item_of next.now) }
{
    ends_block(item) || (is_label(next) && !is_label(item))
}

fn ends_block(item: &Item) -> bool
    ensures { result ≡ ends_block (item_of item.now) }
{
    match item {
        Item::Label(_) => false,
        Item::Stmt(Stmt::Null) => false,
        Item::Stmt(Stmt::Store(_, _)) => false,
        Item::Stmt(Stmt::Jump(_)) => true,
        Item::Stmt(Stmt::Switch(_, _, _)) => true,
        Item::Stmt(Stmt::Call(_, _, _)) => true,
        Item::Stmt(Stmt::Return(_)) => true,
    }
}

fn is_label(item: &Item) -> bool
    ensures { result ≡ is_label (item_of item.now) }
{
    match item {
        Item::Label(_) => true,
        Item::Stmt(_) => false,
    }
}
