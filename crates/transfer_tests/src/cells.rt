//! Whether a cell is there: it lies in its frame, and its frame is active.

use crate::program::checked_text;
use crate::steps::told_script;
use crate::values::field;
use alf_check::Checked;
use std::alloc::{AllocError, Global};
use std::test::Fail;

// What happens first: nothing, `main` is entered, then `leaf`, then `main` is left, then `leaf`.
const EVENTS: &str = "\
|enter 0; \
|enter 0; enter 1; \
|enter 0; enter 1; leave 0; \
|enter 0; enter 1; leave 0; leave 1; ";

// A frame, an offset and a size, and whether the cell is there after each of these. Frames 0 and 1 are global, of 16
// and 80 bytes; frame 2 is of `main`, of 8 bytes; frames 3 and 4 are of `leaf`, of 4 and 8 bytes. There is no other.
const ROWS: &str = "\
0 0 8: yes yes yes yes yes\n\
0 0 64: yes yes yes yes yes\n\
0 15 8: yes yes yes yes yes\n\
0 14 16: yes yes yes yes yes\n\
0 13 24: yes yes yes yes yes\n\
0 12 32: yes yes yes yes yes\n\
0 11 40: yes yes yes yes yes\n\
0 10 48: yes yes yes yes yes\n\
0 9 56: yes yes yes yes yes\n\
0 8 64: yes yes yes yes yes\n\
0 16 8: no no no no no\n\
0 15 16: no no no no no\n\
0 14 24: no no no no no\n\
0 13 32: no no no no no\n\
0 12 40: no no no no no\n\
0 11 48: no no no no no\n\
0 10 56: no no no no no\n\
0 9 64: no no no no no\n\
0 16 64: no no no no no\n\
0 17 8: no no no no no\n\
0 4294967295 8: no no no no no\n\
0 536870912 8: no no no no no\n\
0 4294967288 64: no no no no no\n\
1 63 16: yes yes yes yes yes\n\
1 64 64: yes yes yes yes yes\n\
1 79 8: yes yes yes yes yes\n\
1 72 64: yes yes yes yes yes\n\
1 80 8: no no no no no\n\
1 73 64: no no no no no\n\
2 0 64: no yes yes no no\n\
2 7 8: no yes yes no no\n\
2 4 32: no yes yes no no\n\
2 8 8: no no no no no\n\
2 1 64: no no no no no\n\
2 5 32: no no no no no\n\
3 0 32: no no yes yes no\n\
3 3 8: no no yes yes no\n\
3 4 8: no no no no no\n\
3 1 32: no no no no no\n\
3 0 40: no no no no no\n\
4 0 64: no no yes yes no\n\
4 2 48: no no yes yes no\n\
4 3 48: no no no no no\n\
4 8 8: no no no no no\n\
5 0 8: no no no no no\n\
4294967295 0 8: no no no no no";

// Whether the cell is there after the events at this place.
fn told_cell(
    alloc: Global,
    checked: &Checked,
    cell: &str,
    place: usize,
) -> Result<String, AllocError> {
    let events = field(EVENTS, "|", place);
    let script = format!(in alloc; "{events}has {cell}")?;
    told_script(alloc, checked, script.as_str())
}

#[test]
fn a_cell_is_there_where_it_lies_in_an_active_frame(rt: HostRuntime) -> Result<(), Fail> {
    let alloc = rt.alloc();
    let checked = checked_text(alloc)?;
    for row in ROWS.split("\n") {
        let (cell, answers) = (field(row, ": ", 0), field(row, ": ", 1));
        for place in 0..5usize {
            let told = told_cell(alloc, &checked, cell, place)?;
            assert_eq!(rt; told.as_str(), field(answers, " ", place), "{row}");
        }
    }
    Ok(())
}
