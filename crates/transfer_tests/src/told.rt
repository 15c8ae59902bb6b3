//! What memories hold at the next points of a step, as text.

ghost use Rattle.std.specs.Prelude.{◌≢◌, All};
ghost use Rattle.memory_model.specs.KeptMemories.{IsMemory};

use crate::values::{field, is_cell, is_value, small, told, value};
use abstract_memory::AMem;
use std::alloc::{AllocError, Global};

// What a load of a cell gives. A cell is told by its address and its size, as `p1:4/32`.
fn add_cell(
    alloc: Global,
    text: &mut String,
    memory: &AMem<'_>,
    cell: &str,
) -> Result<(), AllocError>
    requires { IsMemory memory.now }
{
    let size = small(field(cell, "/", 1));
    let at = value(alloc, field(cell, "/", 0))?;
    if is_value(&at, 32) && is_cell(size) {
        let (loaded, faults) = memory.load(alloc, &at, size)?;
        let told = told(alloc, &loaded, faults)?;
        text.push_str(" ")?;
        text.push_str(told.as_str())?;
    }
    Ok(())
}

// What loads of these cells give.
fn add_cells(
    alloc: Global,
    text: &mut String,
    memory: &AMem<'_>,
    cells: &str,
) -> Result<(), AllocError>
    requires { IsMemory memory.now }
{
    for cell in cells.split(" ") {
        add_cell(alloc, text, memory, cell)?;
    }
    Ok(())
}

// A point: the node, and what its memory holds; or the end.
fn add_point(
    alloc: Global,
    text: &mut String,
    exit: u32,
    point: &(u32, AMem<'_>),
    cells: &str,
) -> Result<(), AllocError>
    requires { point.now.0 ≢ exit → IsMemory point.now.1 }
{
    if point.0 == exit {
        return text.push_str(" end");
    }
    let told = format!(in alloc; " {}(", point.0)?;
    text.push_str(told.as_str())?;
    add_cells(alloc, text, &point.1, cells)?;
    text.push_str(" )")
}

/// Points one after the other, with what these cells hold.
pub(crate) fn add_points(
    alloc: Global,
    text: &mut String,
    exit: u32,
    points: &[(u32, AMem<'_>)],
    cells: &str,
) -> Result<(), AllocError>
    requires { All (λ point. point.0 ≢ exit → IsMemory point.1) points.now }
{
    for point in points {
        add_point(alloc, text, exit, point, cells)?;
    }
    Ok(())
}
