//! Programs of calls, jumps and switches alone, in a short notation.

use alf_check::{Checked, check};
use alf_text::read;
use domain_core::Outline;
use flow_graph::Graph;
use scope_graph::outline;
use std::alloc::{AllocError, Global};

const HEAD: &str = "\
{ alf { macro_defs } { least_addr_unit 8 } little_endian { exports { frefs } { lrefs } } { imports { frefs } { lrefs } } \
{ decls } { inits } { funcs { func { label 32 { lref 32 \"main\" } { dec_unsigned 32 0 } } ";

const BODY: &str = "{ arg_decls } { scope { decls } { inits } { stmts ";

const TAIL: &str = "} } } } }";

// A target of a switch, for the word with this number.
fn target(alloc: Global, text: &mut String, label: &str, number: u32) -> Result<(), AllocError> {
    let word = format!(in alloc; "{{ target {{ dec_unsigned 32 {number} }} ")?;
    around(text, word.as_str(), label, " } ")
}

// The label of a name, between two texts.
fn around(text: &mut String, front: &str, name: &str, back: &str) -> Result<(), AllocError> {
    text.push_str(front)?;
    text.push_str("{ label 32 { lref 32 \"")?;
    text.push_str(name)?;
    text.push_str("\" } { dec_unsigned 32 0 } }")?;
    text.push_str(back)
}

// A label, a jump, a call, or the head of a function. Answers whether the word was one of these.
fn put_name(text: &mut String, word: &str) -> Result<bool, AllocError> {
    if let Some(label) = word.strip_prefix("@") {
        around(text, "", label, " ")?;
    } else if let Some(label) = word.strip_prefix("^") {
        around(text, "{ jump ", label, " leaving 0 } ")?;
    } else if let Some(func) = word.strip_prefix("!") {
        around(text, "{ call ", func, " result } ")?;
    } else if let Some(func) = word.strip_prefix("/") {
        around(text, "} } } { func ", func, " ")?;
        text.push_str(BODY)?;
    } else {
        return Ok(false);
    }
    Ok(true)
}

// A part of a switch, a statement that does nothing, or a return.
fn put_other(alloc: Global, text: &mut String, word: &str, number: u32) -> Result<(), AllocError> {
    if let Some(label) = word.strip_prefix("?") {
        text.push_str("{ switch { dec_unsigned 32 0 } ")?;
        target(alloc, text, label, number)
    } else if let Some(label) = word.strip_prefix(",") {
        target(alloc, text, label, number)
    } else if let Some(label) = word.strip_prefix("|") {
        around(text, "{ default ", label, " } } ")
    } else if word == ";" {
        text.push_str("{ null } ")
    } else {
        text.push_str("{ return } ")
    }
}

// The text of the program.
fn text_of(alloc: Global, items: &str) -> Result<String, AllocError> {
    let mut text = String::from_str(alloc, HEAD)?;
    text.push_str(BODY)?;
    let mut number: u32 = 0;
    for word in items.split(' ') {
        if !put_name(&mut text, word)? {
            put_other(alloc, &mut text, word, number)?;
        }
        number = number.wrapping_add(1);
    }
    text.push_str(TAIL)?;
    Ok(text)
}

/// The program that the text spells, checked, with the root `main`.
pub fn checked_text(alloc: Global, text: &str) -> Result<Checked, &'static str> {
    let Ok(program) = read(alloc, text.as_bytes()) else {
        return Err("the program is not read");
    };
    let Ok(checked) = check(alloc, program, "main") else {
        return Err("the program does not pass");
    };
    Ok(checked)
}

/// The program whose `main` has these items, checked.
///
/// `.` is a return, `;` a statement that does nothing, `@A` the label A, `^A` a jump to it, `!f` a call of f; after
/// `/f` stand the items of a further function f. A switch on a constant is `?A` with its first target A, further
/// targets `,B`, and `|C` for all other words.
pub fn program_of(alloc: Global, items: &str) -> Result<Checked, &'static str> {
    match text_of(alloc, items) {
        Ok(text) => checked_text(alloc, text.as_str()),
        Err(_) => Err("memory ran out"),
    }
}

/// The outline of the program whose `main` has these items. Its nodes cost nothing.
pub fn outline_of(alloc: Global, items: &str) -> Result<Outline, &'static str> {
    let checked = program_of(alloc, items)?;
    let Ok(graph) = Graph::expand(alloc, &checked) else {
        return Err("the program has no graph");
    };
    let Ok(found) = outline(alloc, &graph) else {
        return Err("the graph has no outline");
    };
    Ok(found)
}

/// The same with these costs, in the order of nodes. A node without a cost costs nothing.
pub fn costed(alloc: Global, items: &str, costs: &str) -> Result<Outline, &'static str> {
    let mut outline = outline_of(alloc, items)?;
    let mut words = costs.split(' ');
    for node in 0..outline.node_count() {
        if node < outline.node_count() {
            outline.set_cost(node, number(words.next()));
        }
    }
    Ok(outline)
}

// The number that a word spells, or 0.
fn number(word: Option<&str>) -> u32 {
    match word {
        Some(word) => word.parse::<u32>().unwrap_or(0),
        None => 0,
    }
}
