//! Which bytes of frames have a row.

ghost use Rattle.std.specs.Prelude.{◌≤◌, ◌↔◌, length, IsTrue};
ghost use Rattle.cost_table.specs.Marks.{IsMarkedIn, MarksIn};

// Some byte from one place up to another has a mark.
pub fn any_marked(marks: &[bool], from: usize, to: usize) -> bool
    requires from { from ≤ to }
    requires to { to ≤ length marks.now }
    ensures { IsTrue result ↔ IsMarkedIn marks.now from to }
{
    for place in from..to {
        if marks[place] {
            return true;
        }
    }
    false
}

// Marks each byte from one place up to another.
pub fn mark(marks: &mut [bool], from: usize, to: usize)
    requires from { from ≤ to }
    requires to { to ≤ length marks.old }
    ensures { MarksIn marks.old marks.new from to }
{
    for place in from..to {
        marks[place] = true;
    }
}
