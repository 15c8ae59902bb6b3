//! Programs of ALF in a short notation, and what it stands for.
//!
//! The lines of a program are these, of which those without words are left out:
//!
//! ```text
//! exports x y         the exported frames
//! frames x%32 y%8     the global frames with their bits
//! inits x+0=#5        what is held at first at an offset of a frame
//! func f              a function; what follows belongs to it
//! args f::n%32        its arguments
//! locals f::i%32      its frames
//!   ITEM              an item, after two spaces
//! ```
//!
//! An item has words, with single spaces between them:
//!
//! - `#5`, `#-5`, `#5u`, `#5%8`: a number, with a sign or, after `u`, without one, of 32 bits or of so many; `'1`: the bit 1
//! - `@f`: the label f; `goto>f`: a jump to it; `#5>f`: a target; `else>f`: a default
//! - `&x`, `&x+4`: the address of the frame x, at offset 0 or another; `*x`, `*x%8`: a load there, of 32 bits or of so many
//! - anything else: itself
//!
//! The text is canonical: nothing is computed here, and each word stands for what is said of it.

use std::alloc::{AllocError, Global};

const HEAD: &str = "{ alf { macro_defs } { least_addr_unit 8 } little_endian { exports { frefs";

/// The program that the lines say. Lines that say nothing are passed over.
pub fn program_of(alloc: Global, lines: &str) -> Result<String, AllocError> {
    let mut text = String::from_str(alloc, HEAD)?;
    let mut parts = lines.split("\nfunc ");
    let globals = parts.next().unwrap_or("");
    push_exports(&mut text, globals)?;
    text.push_str(" } { lrefs } } { imports { frefs } { lrefs } } { decls")?;
    push_frames(&mut text, globals, "frames ")?;
    text.push_str(" } { inits")?;
    push_inits(&mut text, globals)?;
    text.push_str(" } { funcs")?;
    for function in parts {
        push_function(&mut text, function)?;
    }
    text.push_str(" } }\n")?;
    Ok(text)
}

fn push_all(text: &mut String, parts: &[&str]) -> Result<(), AllocError> {
    for part in parts {
        text.push_str(part)?;
    }
    Ok(())
}

// The two sides of a word. The right one is empty where the mark is not there.
fn sides(word: &str, mark: char) -> (&str, &str) {
    word.split_once(mark).unwrap_or((word, ""))
}

fn push_exports(text: &mut String, lines: &str) -> Result<(), AllocError> {
    for line in lines.lines() {
        if let Some(names) = line.strip_prefix("exports ") {
            for name in names.split(' ') {
                push_all(text, &[" { fref 32 \"", name, "\" }"])?;
            }
        }
    }
    Ok(())
}

fn push_frames(text: &mut String, lines: &str, kind: &str) -> Result<(), AllocError> {
    for line in lines.lines() {
        if let Some(frames) = line.strip_prefix(kind) {
            for frame in frames.split(' ') {
                let (name, bits) = sides(frame, '%');
                push_all(text, &["\n{ alloc 32 \"", name, "\" ", bits, " }"])?;
            }
        }
    }
    Ok(())
}

fn push_inits(text: &mut String, lines: &str) -> Result<(), AllocError> {
    for line in lines.lines() {
        if let Some(inits) = line.strip_prefix("inits ") {
            for init in inits.split(' ') {
                push_init(text, init)?;
            }
        }
    }
    Ok(())
}

fn push_init(text: &mut String, init: &str) -> Result<(), AllocError> {
    let (place, number) = sides(init, '=');
    let (name, offset) = sides(place, '+');
    push_all(
        text,
        &[
            "\n{ init { ref \"",
            name,
            "\" { dec_unsigned 32 ",
            offset,
            " } } ",
        ],
    )?;
    push_constant(text, number)?;
    text.push_str(" }")
}

fn push_function(text: &mut String, function: &str) -> Result<(), AllocError> {
    let (name, lines) = sides(function, '\n');
    text.push_str("\n{ func ")?;
    push_label(text, name)?;
    text.push_str(" { arg_decls")?;
    push_frames(text, lines, "args ")?;
    text.push_str(" } { scope { decls")?;
    push_frames(text, lines, "locals ")?;
    text.push_str(" } { inits } { stmts")?;
    for line in lines.lines() {
        if let Some(item) = line.strip_prefix("  ") {
            push_item(text, item)?;
        }
    }
    text.push_str(" } } }")
}

fn push_item(text: &mut String, item: &str) -> Result<(), AllocError> {
    for (at, word) in item.split(' ').enumerate() {
        text.push(if at == 0 { '\n' } else { ' ' })?;
        push_word(text, word)?;
    }
    Ok(())
}

fn push_word(text: &mut String, word: &str) -> Result<(), AllocError> {
    if let Some((number, label)) = word.split_once('>') {
        return push_branch(text, number, label);
    }
    if let Some(name) = word.strip_prefix('@') {
        return push_label(text, name);
    }
    if let Some(place) = word.strip_prefix('&') {
        return push_address(text, place);
    }
    if let Some(place) = word.strip_prefix('*') {
        return push_load(text, place);
    }
    push_constant(text, word)
}

// A number, and anything else as it stands.
fn push_constant(text: &mut String, word: &str) -> Result<(), AllocError> {
    if let Some(number) = word.strip_prefix('#') {
        return push_number(text, number);
    }
    if let Some(bit) = word.strip_prefix('\'') {
        return push_all(text, &["{ dec_unsigned 1 ", bit, " }"]);
    }
    text.push_str(word)
}

fn push_branch(text: &mut String, number: &str, label: &str) -> Result<(), AllocError> {
    if number == "goto" {
        text.push_str("{ jump ")?;
        push_label(text, label)?;
        return text.push_str(" leaving 0 }");
    }
    if number == "else" {
        text.push_str("{ default ")?;
    } else {
        text.push_str("{ target ")?;
        push_constant(text, number)?;
        text.push(' ')?;
    }
    push_label(text, label)?;
    text.push_str(" }")
}

fn push_label(text: &mut String, name: &str) -> Result<(), AllocError> {
    push_all(
        text,
        &[
            "{ label 32 { lref 32 \"",
            name,
            "\" } { dec_unsigned 32 0 } }",
        ],
    )
}

fn push_address(text: &mut String, place: &str) -> Result<(), AllocError> {
    let (name, offset) = place.split_once('+').unwrap_or((place, "0"));
    push_all(
        text,
        &[
            "{ addr 32 { fref 32 \"",
            name,
            "\" } { dec_unsigned 32 ",
            offset,
            " } }",
        ],
    )
}

fn push_load(text: &mut String, place: &str) -> Result<(), AllocError> {
    let (place, bits) = place.split_once('%').unwrap_or((place, "32"));
    push_all(text, &["{ load ", bits, " "])?;
    push_address(text, place)?;
    text.push_str(" }")
}

fn push_number(text: &mut String, number: &str) -> Result<(), AllocError> {
    let (number, bits) = number.split_once('%').unwrap_or((number, "32"));
    if let Some(number) = number.strip_suffix('u') {
        return push_all(text, &["{ dec_unsigned ", bits, " ", number, " }"]);
    }
    push_all(text, &["{ dec_signed ", bits, " "])?;
    match number.strip_prefix('-') {
        Some(number) => push_all(text, &["{ minus ", number, " } }"]),
        None => push_all(text, &[number, " }"]),
    }
}
