//! Texts of ALF: programs read from them, and programs printed.
//!
//! A text spells one program, or it departs from the grammar at one first place; `read` gives which of the two it
//! is. `print` writes the canonical text of a program, in which one space or one line feed stands between two
//! tokens. Where some text spells the program, its canonical text does, and which programs some text spells is a
//! condition on programs alone. Both hold by laws over the grammar, whose rules each carry the proof that they are
//! exact.
//!
//! It stands on `grammar` for rules and lists, on `alf_reader` for the rules of expressions, frames and names and
//! for the reader, on `alf_tokens` for tokens, and on `alf_program` for programs. The rules stand in words in
//! `docs/formats/alf.md`.
#![tactic(auto)]

// Reading, by the rules of the grammar.
mod functions;
mod programs;
mod sequences;
mod statements;

// Writing: tokens, names and numbers, then expressions, statements and programs.
mod canonical_tokens;
mod printer;
mod printing;

// What a text means, and what the definitions promise.
mod language;
mod laws;
mod writable;

pub use alf_program::{Alloc, Expr, Func, Init, Item, Num, Program, Stmt};
pub use alf_reader::{FaultAt, TextFault};
pub use language::{one_meaning, read};
pub use laws::canonical_texts_are_read_back;
pub use printing::print;
pub use writable::writable_programs_are_spelled;
