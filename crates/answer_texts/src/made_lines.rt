//! The text of a program of C that is made.

ghost use Rattle.std.specs.Prelude.{◌≡◌, ◌+◌, ◌++◌, IfOk, OnOk};
ghost use Rattle.answer_texts.specs.MadeProgram.{first_line, inner_loop, last_line, loops_line, made_text, outer_start};

use std::alloc::{AllocError, Global};

/// The program with so many pairs of loops, of which each is a line.
pub fn made_text(alloc: Global, count: u32) -> Result<Vec<u8>, AllocError>
    ensures { IfOk result (λ text. text.items ≡ made_text count) }
{
    let mut text = Vec::new(alloc);
    text.extend_from_slice(first_line())?;
    for k in 0..count {
        push_loops(&mut text, alloc, k + 1)?;
    }
    text.extend_from_slice(last_line())?;
    Ok(text)
}

// Adds the pair of loops with this number.
fn push_loops(text: &mut Vec<u8>, alloc: Global, number: u32) -> Result<(), AllocError>
    ensures { OnOk result (text.new.items ≡ text.old.items ++ loops_line number) }
{
    let turns = format!(in alloc; "{number}")?;
    text.extend_from_slice(outer_start())?;
    text.extend_from_slice(turns.as_bytes())?;
    text.extend_from_slice(inner_loop())?;
    Ok(())
}

// A pair of loops up to the turns of the outer one.
#[tactic(auto, unfolding(crate::specs::MadeProgram::outer_start))]
fn outer_start() -> &'static [u8]
    ensures { result.now ≡ outer_start }
{
    b"for (i = 0; i < "
}

// And behind them.
#[tactic(auto, unfolding(crate::specs::MadeProgram::inner_loop))]
fn inner_loop() -> &'static [u8]
    ensures { result.now ≡ inner_loop }
{
    b"; i = i + 1) for (j = 0; j < i; j = j + 1) s = s + j;\n"
}

// The line before the loops.
#[tactic(auto, unfolding(crate::specs::MadeProgram::first_line))]
fn first_line() -> &'static [u8]
    ensures { result.now ≡ first_line }
{
    b"int main(void) { int i; int j; int s = 0;\n"
}

// The line behind them.
#[tactic(auto, unfolding(crate::specs::MadeProgram::last_line))]
fn last_line() -> &'static [u8]
    ensures { result.now ≡ last_line }
{
    b"return s; }\n"
}
