//! Searches for worst inputs over tables of bounds.

ghost use Rattle.std.specs.Prelude.{◌<◌, ◌≤ℤ◌, ◌<ℤ◌, pos, length};

use crate::bound_table::BoundTable;
use crate::tables::{hold, number, part};
use std::alloc::{AllocError, Global};
use std::test::Fail;
use worst_inputs::{Bounded, Found, Range, SearchFault, search};

// What each of the numbers from 0 on costs. A word with a dash is a number without a bound, and tells where one is
// missing.
fn entries_of(alloc: Global, words: &str) -> Result<Vec<Bounded>, AllocError> {
    let mut entries = Vec::new(alloc);
    for word in words.split(' ') {
        let entry = match word.strip_prefix('-') {
            Some(place) => Bounded::Left(number(place)),
            None => Bounded::At(u64::from(number(word))),
        };
        entries.push(entry)?;
    }
    Ok(entries)
}

// A search over the table of these entries, from low to high.
fn searched(
    alloc: Global,
    entries: Vec<Bounded>,
    low: i128,
    high: i128,
    splits: u32,
) -> Result<Found, SearchFault>
    requires few { length entries.items < 100 }
    requires least { pos 0 ≤ℤ low }
    requires ordered { low ≤ℤ high }
    requires most { high <ℤ pos (length entries.items) }
{
    let mut table = BoundTable { entries };
    search(alloc, &mut table, &[Range { low, high }], splits)
}

// The boxes, each with its bound and its ends, and whether the greatest bound is exact.
fn boxes_text(alloc: Global, found: &Found) -> Result<String, AllocError> {
    let mut text = String::from_str(alloc, if found.exact { "exact" } else { "open" })?;
    for (area, bound) in found.boxes.iter() {
        for range in area.iter() {
            let one = format!(in alloc; "; {bound} {} {}", range.low, range.high)?;
            text.push_str(one.as_str())?;
        }
    }
    Ok(text)
}

/// What is told of costs, of the ends of a search, and of how many splits it may make.
pub fn boxes_told(alloc: Global, asked: &str) -> Result<String, AllocError> {
    let entries = entries_of(alloc, part(asked, " | ", 0))?;
    let ends = part(asked, " | ", 1);
    let (low, high) = (number(part(ends, " ", 0)), number(part(ends, " ", 1)));
    if entries.len() >= 100 || low > high || high as usize >= entries.len() {
        return String::from_str(alloc, "no range");
    }
    let splits = number(part(asked, " | ", 2));
    let found = searched(alloc, entries, low as i128, high as i128, splits);
    match &found {
        Ok(found) => boxes_text(alloc, found),
        Err(SearchFault::Left(place)) => format!(in alloc; "left {place}"),
        Err(SearchFault::Memory) => String::from_str(alloc, "memory"),
    }
}

// What each number costs, the ends of the search, and the splits.
static BOXES: &str = "\
5 boxes
// four splits find the worst number, and one leaves the bound open
3 5 7 9 11 13 15 17 19 21 23 | 0 10 | 4 => exact; 13 0 5; 19 6 8; 21 9 9; 23 10 10
3 5 7 9 11 13 15 17 19 21 23 | 0 10 | 1 => open; 13 0 5; 23 6 10
// a point needs no split
3 5 7 9 11 13 15 17 19 21 23 | 7 7 | 0 => exact; 17 7 7
// the first of equal bounds is split
5 5 5 5 | 0 3 | 16 => exact; 5 0 0; 5 1 1; 5 2 3
// a bound that is missing is told
5 -2 -7 | 0 2 | 16 => left 2";

#[test]
fn the_first_box_of_greatest_bound_is_split(rt: HostRuntime) -> Result<(), Fail> {
    hold(rt.alloc(), BOXES)
}
