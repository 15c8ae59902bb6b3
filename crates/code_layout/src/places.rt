//! Where code lies.

ghost use Rattle.std.specs.Prelude.{◌≡◌, ◌<◌, ◌≤◌, length, IfOk};
ghost use Rattle.alf_check.specs.CheckedPrograms.{blocks_at, seen};
ghost use Rattle.flow_graph.specs.Numbering.{IsGraph};
ghost use Rattle.flow_graph.specs.Expansions.{node_number};
ghost use Rattle.flow_graph.specs.Paths.{HasBlock};
ghost use Rattle.code_layout.specs.Layouts.{all_statements, most_statements, bytes_of, block_part, place_part};
ghost use Rattle.code_layout.specs.Layouts.{node_part, parts_of};

use crate::statements::{statements_before_block, statements_before_function, statements_in};
use alf_check::Checked;
use flow_graph::{Graph, graphs_are_expansions};
use std::alloc::{AllocError, Global};

// So few statements as a number of 64 bits.
fn low(statements: u128) -> u64
    requires { statements ≤ most_statements }
    ensures { result ≡ statements }
{
    statements as u64
}

// The bytes of so many statements.
fn bytes(statements: u64) -> u64
    requires { statements ≤ most_statements }
    ensures { result ≡ bytes_of statements }
{
    4 * statements
}

// The address and the size of a block.
fn block_part(checked: &Checked, func: u32, block: u32) -> (u64, u64)
    requires few { all_statements (seen checked.now) ≤ most_statements }
    requires func { func < length (seen checked.now).funcs }
    requires block { block < length (blocks_at (seen checked.now) func) }
    ensures { result ≡ block_part (seen checked.now) func block }
{
    let functions = statements_before_function(checked, func);
    let blocks = statements_before_block(checked, func, block);
    let own = statements_in(checked.block(func, block));
    (bytes(low(functions + blocks)), bytes(own))
}

// The address and the size of an entry or a block.
fn place_part(checked: &Checked, func: u32, block: Option<u32>) -> (u64, u64)
    requires few { all_statements (seen checked.now) ≤ most_statements }
    requires func { func < length (seen checked.now).funcs }
    requires block { HasBlock (seen checked.now) func block }
    ensures { result ≡ place_part (seen checked.now) func block }
{
    match block {
        None => (0, 0),
        Some(block) => block_part(checked, func, block),
    }
}

// The address and the size of a node.
fn node_part(checked: &Checked, graph: &Graph, n: u32) -> (u64, u64)
    requires graph { IsGraph (seen checked.now) graph.now }
    requires few { all_statements (seen checked.now) ≤ most_statements }
    requires node { n < length graph.now.nodes }
    ensures { result ≡ node_part (seen checked.now) (node_number graph.now n) }
{
    checked.keeps();
    graphs_are_expansions();
    let node = graph.node(n);
    place_part(checked, node.func, node.block)
}

/// The address and the size of each node of the graph, in bytes; both are 0 of an entry.
///
/// Takes time by the nodes times the blocks.
pub fn parts(alloc: Global, checked: &Checked, graph: &Graph) -> Result<Vec<(u64, u64)>, AllocError>
    requires graph { IsGraph (seen checked.now) graph.now }
    requires few { all_statements (seen checked.now) ≤ most_statements }
    ensures { IfOk result (λ parts. parts.items ≡ parts_of (seen checked.now) graph.now) }
{
    let mut parts = Vec::new(alloc);
    for n in 0..graph.node_count() {
        parts.push(node_part(checked, graph, n))?;
    }
    Ok(parts)
}
