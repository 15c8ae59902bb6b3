//! Programs and inputs in a short notation.
//!
//! A program is told by the items of `main` and of further functions. The global frames are `x`, `y`, `r` and `p` of 32
//! bits, `c` of 8, `h` of 16 and `w` of 64, which are the frames 0 to 6. Each function has the frame `own` of 32 bits.

use std::alloc::{AllocError, Global};

const HEAD: &str = "\
{ alf { macro_defs } { least_addr_unit 8 } little_endian { exports { frefs } { lrefs } } { imports { frefs } { \
lrefs } } { decls { alloc 32 \"x\" 32 } { alloc 32 \"y\" 32 } { alloc 32 \"r\" 32 } { alloc 32 \"p\" 32 } { alloc \
32 \"c\" 8 } { alloc 32 \"h\" 16 } { alloc 32 \"w\" 64 } } { inits } { funcs { func { label 32 { lref 32 \"main\" } \
{ dec_unsigned 32 0 } } { arg_decls } ";

const OWN: &str = "{ scope { decls { alloc 32 \"own\" 32 } } { inits } { stmts ";

// What a word begins with, and what then stands before and after its name. `@A` is a label or a function, `&x` an
// address, `*x` a load of 32 bits and `*8x` one of 8, `#5` a number of 32 bits, `$5` one of 8 and `'0` a bit. After
// `/f` stand the items of a further function, and after `%f` those of one with the arguments `a` of 8, `b` of 32 and
// `d` of 64 bits.
static WORDS: [(&str, &str, &str); 11] = [
    (
        "@",
        "{ label 32 { lref 32 \"",
        "\" } { dec_unsigned 32 0 } } ",
    ),
    (
        "&",
        "{ addr 32 { fref 32 \"",
        "\" } { dec_unsigned 32 0 } } ",
    ),
    (
        "*8",
        "{ load 8 { addr 32 { fref 32 \"",
        "\" } { dec_unsigned 32 0 } } } ",
    ),
    (
        "*16",
        "{ load 16 { addr 32 { fref 32 \"",
        "\" } { dec_unsigned 32 0 } } } ",
    ),
    (
        "*64",
        "{ load 64 { addr 32 { fref 32 \"",
        "\" } { dec_unsigned 32 0 } } } ",
    ),
    (
        "*",
        "{ load 32 { addr 32 { fref 32 \"",
        "\" } { dec_unsigned 32 0 } } } ",
    ),
    ("#", "{ dec_unsigned 32 ", " } "),
    ("$", "{ dec_unsigned 8 ", " } "),
    ("'", "{ dec_unsigned 1 ", " } "),
    (
        "/",
        "} } } { func { label 32 { lref 32 \"",
        "\" } { dec_unsigned 32 0 } } { arg_decls } ",
    ),
    (
        "%",
        "} } } { func { label 32 { lref 32 \"",
        "\" } { dec_unsigned 32 0 } } { arg_decls { alloc 32 \"a\" 8 } { alloc 32 \"b\" 32 } { alloc 32 \"d\" 64 } } ",
    ),
];

// Between two texts.
fn around(text: &mut String, before: &str, word: &str, after: &str) -> Result<(), AllocError> {
    text.push_str(before)?;
    text.push_str(word)?;
    text.push_str(after)
}

// A word, where its name stands between two texts, or as it is.
fn put(text: &mut String, word: &str) -> Result<(), AllocError> {
    for (mark, before, after) in &WORDS {
        if let Some(name) = word.strip_prefix(*mark) {
            return around(text, before, name, after);
        }
    }
    around(text, "", word, " ")
}

// The text of a program.
pub fn program_text(alloc: Global, items: &str) -> Result<String, AllocError> {
    let mut text = String::from_str(alloc, HEAD)?;
    text.push_str(OWN)?;
    for word in items.split(' ') {
        put(&mut text, word)?;
        if word.starts_with('/') || word.starts_with('%') {
            text.push_str(OWN)?;
        }
    }
    text.push_str("} } } } }")?;
    Ok(text)
}

// The text of an inputs file: an entry has its frame, the size, how many cells there are, and the ends of the range.
pub fn inputs_text(alloc: Global, entries: &str) -> Result<String, AllocError> {
    let mut text = String::new(alloc);
    for entry in entries.split(';') {
        let mut words = entry.split(' ');
        let told = format!(in alloc;
            "[[input]]\nframe=\"{}\"\noffset=0\nsize={}\ncount={}\nlow={}\nhigh={}\n",
            words.next().unwrap_or(""),
            words.next().unwrap_or(""),
            words.next().unwrap_or(""),
            words.next().unwrap_or(""),
            words.next().unwrap_or("")
        )?;
        text.push_str(told.as_str())?;
    }
    Ok(text)
}
