//! Programs in a short notation.

use crate::cases::replaced;
use std::alloc::{AllocError, Global};

const HEAD: &str = "{ alf { macro_defs } { least_addr_unit 8 } little_endian { exports { frefs ";

const FUNCTION: &str = "{ func { label 32 { lref 32 \"$\" } { dec_unsigned 32 0 } } { arg_decls ";

const FRAME: &str = "{ alloc 32 \"$\" <bits> } ";

const INIT: &str = "{ init { ref \"$\" { dec_unsigned 32 0 } } { dec_unsigned <bits> <number> } } ";

/// The program with these exports and global frames, and these functions.
///
/// In each of the three a single space stands between two words, and `-` is nothing. An export is the
/// name of a frame, or `@f` for the function f. A frame has 32 bits, unless its size stands after its
/// name: `x%8`. It holds a number at first where one stands after that: `x=5`, `x%8=5`. A function
/// stands after its name: `/f`, or `/f:x,y%8:z` with arguments and frames of its own. What stands
/// before the first of them belongs to `main`. A word of a function is one of
///
/// - `@A`: the label A, or the name of a called function; `^A`: a jump to A; `.`: a return
/// - `x=5`, `x=y`, `x=y+5`: a store in the frame x
/// - `?x:1>A:2>B:C`: a switch on the frame x, to A at 1, to B at 2, else to C
/// - `&x`: the address of the frame x; `*x`: a load of it; `#5`: the number 5; `'1`: the bit 1
/// - anything else: itself
pub fn program_of(
    alloc: Global,
    exports: &str,
    frames: &str,
    functions: &str,
) -> Result<String, AllocError> {
    let mut text = String::from_str(alloc, HEAD)?;
    push_exports(&mut text, exports, false)?;
    text.push_str("} { lrefs ")?;
    push_exports(&mut text, exports, true)?;
    text.push_str("} } { imports { frefs } { lrefs } } { decls ")?;
    push_frames(&mut text, frames, ' ', FRAME)?;
    text.push_str("} { inits ")?;
    push_frames(&mut text, frames, ' ', INIT)?;
    text.push_str("} { funcs ")?;
    push_functions(&mut text, functions)?;
    text.push_str("} } } } }")?;
    Ok(text)
}

// A template with the part in place of each `$` in it.
fn push_filled(text: &mut String, template: &str, part: &str) -> Result<(), AllocError> {
    let filled = replaced(*text.allocator(), template, "$", part)?;
    text.push_str(filled.as_str())
}

// The exported frames, or the exported functions.
fn push_exports(text: &mut String, exports: &str, functions: bool) -> Result<(), AllocError> {
    for name in exports.split(' ') {
        match name.strip_prefix('@') {
            Some(function) if functions => push_filled(text, "{ lref 32 \"$\" } ", function)?,
            None if !functions && name != "-" => push_filled(text, "{ fref 32 \"$\" } ", name)?,
            _ => {}
        }
    }
    Ok(())
}

// The template for each frame, with its bits and its number. One that has no number has no init.
fn push_frames(
    text: &mut String,
    frames: &str,
    mark: char,
    template: &str,
) -> Result<(), AllocError> {
    let alloc = *text.allocator();
    for frame in frames.split(mark) {
        let name = frame.split('=').nth(0).unwrap_or("");
        let number = frame.split('=').nth(1).unwrap_or("");
        if frame == "-" || frame.is_empty() || (template == INIT && number.is_empty()) {
            continue;
        }
        let bits = name.split('%').nth(1).unwrap_or("32");
        let sized = replaced(alloc, template, "<bits>", bits)?;
        let counted = replaced(alloc, sized.as_str(), "<number>", number)?;
        push_filled(text, counted.as_str(), name.split('%').nth(0).unwrap_or(""))?;
    }
    Ok(())
}

fn push_functions(text: &mut String, functions: &str) -> Result<(), AllocError> {
    if !functions.starts_with('/') {
        push_function(text, "main")?;
    }
    for (at, word) in functions.split(' ').enumerate() {
        let Some(function) = word.strip_prefix('/') else {
            push_long_word(text, word)?;
            continue;
        };
        if at > 0 {
            text.push_str("} } } ")?;
        }
        push_function(text, function)?;
    }
    Ok(())
}

// The front of a function, up to its items.
fn push_function(text: &mut String, function: &str) -> Result<(), AllocError> {
    push_filled(text, FUNCTION, function.split(':').nth(0).unwrap_or(""))?;
    push_frames(text, function.split(':').nth(1).unwrap_or(""), ',', FRAME)?;
    text.push_str("} { scope { decls ")?;
    push_frames(text, function.split(':').nth(2).unwrap_or(""), ',', FRAME)?;
    text.push_str("} { inits } { stmts ")
}

// A word that stands for others is told by these.
fn push_long_word(text: &mut String, word: &str) -> Result<(), AllocError> {
    let alloc = *text.allocator();
    let words = if word.starts_with('?') {
        switched(alloc, word)?
    } else if word.contains('=') {
        stored(alloc, word)?
    } else {
        return push_word(text, word);
    };
    for word in words.as_str().split(' ') {
        push_word(text, word)?;
    }
    Ok(())
}

// The words of a store of a sum, of a number or of what a frame holds.
fn stored(alloc: Global, word: &str) -> Result<String, AllocError> {
    let frame = word.split('=').nth(0).unwrap_or("");
    let value = word.split('=').nth(1).unwrap_or("");
    let first = value.split('+').nth(0).unwrap_or("");
    if let Some(number) = value.split('+').nth(1) {
        return format!(in alloc; "{{ store &{frame} with {{ add 32 *{first} #{number} '0 }} }}");
    }
    if let Some(b'0'..=b'9') = value.as_bytes().first() {
        return format!(in alloc; "{{ store &{frame} with #{value} }}");
    }
    format!(in alloc; "{{ store &{frame} with *{value} }}")
}

// The words of a switch.
fn switched(alloc: Global, word: &str) -> Result<String, AllocError> {
    let frame = word
        .split(':')
        .nth(0)
        .unwrap_or("")
        .strip_prefix('?')
        .unwrap_or("");
    let mut words = format!(in alloc; "{{ switch *{frame}")?;
    for arm in word.split(':').skip(1) {
        let number = arm.split('>').nth(0).unwrap_or("");
        let told = match arm.split('>').nth(1) {
            Some(label) => format!(in alloc; " {{ target #{number} @{label} }}")?,
            None => format!(in alloc; " {{ default @{arm} }}")?,
        };
        words.push_str(told.as_str())?;
    }
    words.push_str(" }")?;
    Ok(words)
}

// What a word with such a first letter stands for. Empty where it stands for itself.
fn template_of(word: &str) -> &'static str {
    match word.as_bytes().first() {
        Some(b'.') => "{ return } ",
        Some(b'@') => "{ label 32 { lref 32 \"$\" } { dec_unsigned 32 0 } } ",
        Some(b'^') => "{ jump { label 32 { lref 32 \"$\" } { dec_unsigned 32 0 } } leaving 0 } ",
        Some(b'&') => "{ addr 32 { fref 32 \"$\" } { dec_unsigned 32 0 } } ",
        Some(b'*') => "{ load 32 { addr 32 { fref 32 \"$\" } { dec_unsigned 32 0 } } } ",
        Some(b'#') => "{ dec_unsigned 32 $ } ",
        Some(b'\'') => "{ dec_unsigned 1 $ } ",
        _ => "",
    }
}

fn push_word(text: &mut String, word: &str) -> Result<(), AllocError> {
    match template_of(word) {
        "" => {
            text.push_str(word)?;
            text.push(' ')
        }
        template => push_filled(text, template, word.get(1..).unwrap_or("")),
    }
}
