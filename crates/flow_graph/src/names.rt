//! Names of nodes.

ghost use Rattle.std.specs.Prelude.{◌≡◌, ◌<◌, ◌++◌, length, reverse, IfOk, OnOk};
ghost use Rattle.std.specs.Fmt.{decimal};
ghost use Rattle.alf_check.specs.CheckedPrograms.{seen};
ghost use Rattle.flow_graph.specs.Nodes.{function_at};
ghost use Rattle.flow_graph.specs.Names.{quoted, name_at, path_name, block_word, node_name};
ghost use Rattle.flow_graph.specs.Paths.{IsCallPath};
ghost use Rattle.flow_graph.specs.Places.{node_of};

use crate::goals::called;
use crate::place::Place;
use alf_check::Checked;
use itoa::Buffer;
use std::alloc::{AllocError, Global};

/// The name of a node.
pub fn name_of(alloc: Global, checked: &Checked, place: &Place) -> Result<Vec<u8>, AllocError>
    requires { IsCallPath (seen checked.now) (reverse place.now.path.items) }
    ensures { IfOk result (λ name. name.items ≡ node_name (seen checked.now) (node_of place.now)) }
{
    let mut name = Vec::new(alloc);
    put_path(checked, &place.path, &mut name)?;
    name.push(b':')?;
    put_block(place.block, &mut name)?;
    Ok(name)
}

// Puts the names of the functions of a call path after a text, and gives the last of them.
fn put_path(checked: &Checked, path: &[u32], text: &mut Vec<u8>) -> Result<u32, AllocError>
    requires { IsCallPath (seen checked.now) (reverse path.now) }
    ensures func { IfOk result (λ func. func ≡ function_at (seen checked.now) (reverse path.now)) }
    ensures there { IfOk result (λ func. func < length (seen checked.now).funcs) }
    ensures text { OnOk result (text.new.items ≡ text.old.items ++ path_name (seen checked.now) (reverse path.now)) }
{
    let Some((block, callers)) = path.split_last() else {
        let root = checked.root();
        put_function(checked, root, text)?;
        return Ok(root);
    };
    let caller = put_path(checked, callers, text)?;
    let func = called(checked, caller, *block);
    text.push(b'.')?;
    put_number(*block, text)?;
    put_function(checked, func, text)?;
    Ok(func)
}

// Puts the name of a function in quotes.
fn put_function(checked: &Checked, func: u32, text: &mut Vec<u8>) -> Result<(), AllocError>
    requires { func < length (seen checked.now).funcs }
    ensures { OnOk result (text.new.items ≡ text.old.items ++ quoted (name_at (seen checked.now) func)) }
{
    text.push(b'"')?;
    text.extend_from_slice(checked.func(func).name.bytes())?;
    text.push(b'"')?;
    Ok(())
}

// Puts a block, or the word for the entry.
fn put_block(block: Option<u32>, text: &mut Vec<u8>) -> Result<(), AllocError>
    ensures { OnOk result (text.new.items ≡ text.old.items ++ block_word block) }
{
    match block {
        None => text.extend_from_slice(b"entry"),
        Some(block) => put_number(block, text),
    }
}

// Puts a number in digits.
fn put_number(number: u32, text: &mut Vec<u8>) -> Result<(), AllocError>
    ensures { OnOk result (text.new.items ≡ text.old.items ++ decimal number) }
{
    let mut digits = Buffer::new();
    text.extend_from_slice(digits.format(number).as_bytes())?;
    Ok(())
}
