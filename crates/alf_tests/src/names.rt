//! Labels of a few items.

use alf_faults::{Labels, frame_named, function_named};
use alf_program::{Alloc, Func, Item, Stmt};
use flow_base::Name;
use std::alloc::{AllocError, Global};
use std::test::Fail;

fn name(alloc: Global, text: &str) -> Result<Name, AllocError> {
    Name::new(alloc, text.as_bytes())
}

// A label for each word, and a statement for each empty one.
fn items(alloc: Global, words: &[&str]) -> Result<Vec<Item>, AllocError> {
    let mut items = Vec::new(alloc);
    for word in words {
        if word.is_empty() {
            items.push(Item::Stmt(Stmt::Null))?;
        } else {
            items.push(Item::Label(name(alloc, word)?))?;
        }
    }
    Ok(items)
}

#[test]
fn a_label_is_found_where_it_stands_first(rt: HostRuntime) -> Result<(), Fail> {
    let alloc = rt.alloc();
    let items = items(alloc, ["", "one", "two", "", "one"].as_slice())?;
    let labels = Labels::new(alloc, &items)?;
    assert_eq!(rt; labels.find(b"one"), Some(1));
    assert_eq!(rt; labels.find(b"two"), Some(2));
    assert_eq!(rt; labels.find(b""), None);
    assert_eq!(rt; labels.find(b"on"), None);
    assert_eq!(rt; labels.items().len(), 5);
    Ok(())
}

#[test]
fn frames_and_functions_are_found_by_name(rt: HostRuntime) -> Result<(), Fail> {
    let alloc = rt.alloc();
    let mut frames = Vec::new(alloc);
    for word in ["x", "y", "x"] {
        let name = name(alloc, word)?;
        frames.push(Alloc { name, bits: 32 })?;
    }
    assert_eq!(rt; frame_named(&frames, b"x"), Some(0));
    assert_eq!(rt; frame_named(&frames, b"y"), Some(1));
    assert_eq!(rt; frame_named(&frames, b"z"), None);
    let funcs: Vec<Func> = Vec::new(alloc);
    assert_eq!(rt; function_named(&funcs, b"x"), None);
    Ok(())
}
