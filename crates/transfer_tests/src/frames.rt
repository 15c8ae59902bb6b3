//! The calls on the slots of one frame, one by one.

ghost use Rattle.std.specs.Prelude.{◌≡◌, ◌≤◌, ◌+◌, ◌/◌, true, IsTrue, IfOk, OnOk};
ghost use Rattle.memory_model.specs.HeldFrames.{is_cell_size};
ghost use Rattle.transfer_tests.specs.Slots.{AreSlots};

use crate::values::{is_cell, is_value, told, value};
use domain_core::FaultSet;
use frame_memory::{
    Loaded, byte_of, cell_of_bytes, joined_frame, kept_cell, load_onto, pin, standing_cell,
    store_strongly, store_weakly,
};
use interval_congruence::Strided;
use memory_model::held_memories_are_those_of_the_rules;
use memory_pages::{Byte, FrameSlots};
use pointer_domain::AVal;
use std::alloc::{AllocError, Global};
use std::test::Fail;

// How many bytes the frame has.
const COUNT: u32 = 80;

// The size is that of a cell.
fn is_size(size: u32) -> bool
    ensures { IsTrue result → is_cell_size size ≡ true }
{
    size % 8 == 0 && 0 < size && size <= 64
}

// The cell lies in a frame of so many bytes.
fn lies(count: u32, offset: u32, size: u32) -> bool
    ensures { IsTrue result → offset + size / 8 ≤ count }
{
    offset as u64 + (size / 8) as u64 <= count as u64
}

// Slots that hold nothing.
fn bare(alloc: Global, count: u32) -> Result<FrameSlots, AllocError>
    ensures { IfOk result (AreSlots count) }
{
    held_memories_are_those_of_the_rules();
    let byte = Byte {
        value: None,
        u: true,
        p: false,
    };
    let slots = FrameSlots::new(alloc, count as usize, &byte)?;
    Ok(slots)
}

// A strong store, where it may be made.
fn store(
    alloc: Global,
    slots: &mut FrameSlots,
    count: u32,
    offset: u32,
    value: &AVal,
    size: u32,
) -> Result<(), AllocError>
    requires { AreSlots count slots.old }
    ensures { OnOk result (AreSlots count slots.new) }
{
    if is_size(size) && is_cell(size) && lies(count, offset, size) && is_value(value, size) {
        store_strongly(alloc, slots, offset, size, value)?;
    }
    Ok(())
}

// A weak store, where it may be made.
fn mix(
    alloc: Global,
    slots: &mut FrameSlots,
    count: u32,
    offset: u32,
    value: &AVal,
    size: u32,
) -> Result<(), AllocError>
    requires { AreSlots count slots.old }
    ensures { OnOk result (AreSlots count slots.new) }
{
    if is_size(size) && is_cell(size) && lies(count, offset, size) && is_value(value, size) {
        store_weakly(alloc, slots, offset, size, value)?;
    }
    Ok(())
}

// A pin, where it may be made.
fn pinned(
    alloc: Global,
    slots: &mut FrameSlots,
    count: u32,
    offset: u32,
    words: Strided,
) -> Result<(), AllocError>
    requires { AreSlots count slots.old }
    ensures { OnOk result (AreSlots count slots.new) }
{
    let size = words.size();
    let _ = words.numbers();
    if is_size(size) && lies(count, offset, size) {
        pin(alloc, slots, offset, size, words)?;
    }
    Ok(())
}

// The join.
fn both(alloc: Global, a: &FrameSlots, b: &FrameSlots, count: u32) -> Result<FrameSlots, AllocError>
    requires small { count ≤ 80 }
    requires first { AreSlots count a.now }
    requires second { AreSlots count b.now }
{
    joined_frame(alloc, a, b, count)
}

// What a load of the cell gives after one that gave 1.
fn loaded(
    alloc: Global,
    slots: &FrameSlots,
    count: u32,
    offset: u32,
    size: u32,
) -> Result<String, AllocError>
    requires { AreSlots count slots.now }
{
    let _ = count;
    if !is_size(size) || size < 1 || 64 < size {
        return String::from_str(alloc, "no cell");
    }
    let one = AVal::word(alloc, Strided::one_word(size, 1));
    if !is_value(&one, size) {
        return String::from_str(alloc, "no value");
    }
    let before = Loaded {
        value: Some(one),
        faults: FaultSet::none(),
    };
    let after = load_onto(alloc, slots, offset, size, before)?;
    told(alloc, &after.value, after.faults)
}

#[test]
fn calls_on_slots_give_what_the_rules_say(rt: HostRuntime) -> Result<(), Fail> {
    let alloc = rt.alloc();
    let mut a = bare(alloc, COUNT)?;
    assert!(rt; byte_of(&a, 0).u && !byte_of(&a, 0).p && byte_of(&a, 0).value.is_none());
    let (seven, pointer) = (value(alloc, "w32:7")?, value(alloc, "p0:4")?);
    store(alloc, &mut a, COUNT, 62, &seven, 32)?;
    assert_eq!(rt; loaded(alloc, &a, COUNT, 62, 32)?.as_str(), "w32:1..7/6");
    assert_eq!(rt; loaded(alloc, &a, COUNT, 62, 8)?.as_str(), "w8:1..7/6");
    assert_eq!(rt; loaded(alloc, &a, COUNT, 63, 8)?.as_str(), "w8:0..1/1");
    assert_eq!(rt; loaded(alloc, &a, COUNT, 66, 8)?.as_str(), "w8:1 uninit");
    let b = a.copy()?;
    mix(alloc, &mut a, COUNT, 64, &pointer, 32)?;
    assert_eq!(rt;
        loaded(alloc, &a, COUNT, 64, 32)?.as_str(),
        "w32:1|p0:4 uninit"
    );
    assert_eq!(rt;
        loaded(alloc, &a, COUNT, 62, 32)?.as_str(),
        "w32:1..7/6 mixed"
    );
    assert!(rt; kept_cell(&a, 62, 32).is_some() && kept_cell(&a, 62, 16).is_none());
    assert!(rt; cell_of_bytes(&a, 64, 32).u && cell_of_bytes(&a, 64, 32).x);
    let stands = standing_cell(alloc, &a, 62, 32)?;
    assert!(rt; stands.x && !stands.u && stands.value.is_some());
    pinned(alloc, &mut a, COUNT, 62, Strided::one_word(32, 5))?;
    assert_eq!(rt; loaded(alloc, &a, COUNT, 62, 32)?.as_str(), "w32:1..5/4");
    let c = both(alloc, &a, &b, COUNT)?;
    assert_eq!(rt; loaded(alloc, &b, COUNT, 62, 32)?.as_str(), "w32:1..7/6");
    drop(b);
    assert!(rt; kept_cell(&c, 62, 32).is_some());
    Ok(())
}
