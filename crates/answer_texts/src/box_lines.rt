//! The lines of `worst`: boxes of inputs.

ghost use Rattle.std.specs.Prelude.{◌≡◌, ◌++◌, IfOk, OnOk};
ghost use Rattle.std.specs.List.{flat_map};
ghost use Rattle.worst_inputs.specs.Searches.{seen_box, seen_boxes, found_of};
ghost use Rattle.answer_texts.specs.WorstText.{range_text, box_line, exact_word, worst_line, worst_text};

use std::alloc::{AllocError, Global};
use worst_inputs::{Found, Range};

/// What is told of boxes.
pub fn worst_text(alloc: Global, found: &Found) -> Result<Vec<u8>, AllocError>
    ensures { IfOk result (λ text. text.items ≡ worst_text (found_of found.now)) }
{
    let mut text = Vec::new(alloc);
    push_boxes(&mut text, alloc, &found.boxes)?;
    push_worst(&mut text, alloc, found)?;
    Ok(text)
}

// Adds a line for each box.
fn push_boxes(
    text: &mut Vec<u8>,
    alloc: Global,
    boxes: &[(Vec<Range>, u64)],
) -> Result<(), AllocError>
    ensures { OnOk result (text.new.items ≡ text.old.items ++ flat_map box_line (seen_boxes boxes.now)) }
{
    let Some((first, boxes)) = boxes.split_first() else {
        return Ok(());
    };
    push_box(text, alloc, first)?;
    push_boxes(text, alloc, boxes)
}

// Adds the line of a box.
fn push_box(text: &mut Vec<u8>, alloc: Global, pair: &(Vec<Range>, u64)) -> Result<(), AllocError>
    ensures { OnOk result (text.new.items ≡ text.old.items ++ box_line (seen_box pair.now)) }
{
    let bound = pair.1;
    let start = format!(in alloc; "box {bound}")?;
    text.extend_from_slice(start.as_bytes())?;
    push_ranges(text, alloc, &pair.0)?;
    text.push(b'\n')?;
    Ok(())
}

// Adds the low and the high of each range.
fn push_ranges(text: &mut Vec<u8>, alloc: Global, area: &[Range]) -> Result<(), AllocError>
    ensures { OnOk result (text.new.items ≡ text.old.items ++ flat_map range_text area.now) }
{
    let Some((range, area)) = area.split_first() else {
        return Ok(());
    };
    push_range(text, alloc, range)?;
    push_ranges(text, alloc, area)
}

// Adds the low and the high of a range.
fn push_range(text: &mut Vec<u8>, alloc: Global, range: &Range) -> Result<(), AllocError>
    ensures { OnOk result (text.new.items ≡ text.old.items ++ range_text range.now) }
{
    let low = range.low;
    let high = range.high;
    let both = format!(in alloc; " {low} {high}")?;
    text.extend_from_slice(both.as_bytes())?;
    Ok(())
}

// Adds the greatest bound, and whether it is the greatest cost.
fn push_worst(text: &mut Vec<u8>, alloc: Global, found: &Found) -> Result<(), AllocError>
    ensures { OnOk result (text.new.items ≡ text.old.items ++ worst_line (found_of found.now)) }
{
    let bound = found.worst();
    let start = format!(in alloc; "worst {bound}")?;
    text.extend_from_slice(start.as_bytes())?;
    text.extend_from_slice(exact_word(found.exact).as_bytes())?;
    Ok(())
}

// The word of the greatest bound, to the end of its line.
fn exact_word(exact: bool) -> &'static str
    ensures { result.now ≡ exact_word exact }
{
    if exact { " exact\n" } else { " at-most\n" }
}
