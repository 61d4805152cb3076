// The lines of the names that commands define, in table order: the variables', then the functions'.
ghost use Rattle.listing.specs.Entries.{WritesEntry, WritesEntries};

use crate::function::write_function;
use crate::variable::write_variable;
use tables::count;
use walk::{NODE, VALUE, noted};

// A slot's lines, where a command is noted for it.
fn write_entry(
    sorts: &[u64],
    variables: &[u64],
    functions: &[u64],
    members: &[u64],
    names: &[u8],
    nodes: &[u64],
    text: &[u8],
    last: &[usize],
    slot: usize,
    scratch: &mut [u8],
    out: &mut [u8],
    place: usize,
) -> usize
    ensures { WritesEntry sorts.now variables.now functions.now members.now names.now nodes.now text.now last.now slot out.old out.new place result }
{
    let node = noted(last, slot, NODE);
    if node == 0 {
        return place;
    }
    let rows = count(variables);
    if slot < rows {
        let value = noted(last, slot, VALUE);
        return write_variable(
            sorts, variables, members, names, nodes, text, slot, value, scratch, out, place,
        );
    }
    let row = slot - rows;
    write_function(
        sorts, functions, members, names, nodes, text, row, node, scratch, out, place,
    )
}

pub fn write_entries(
    sorts: &[u64],
    variables: &[u64],
    functions: &[u64],
    members: &[u64],
    names: &[u8],
    nodes: &[u64],
    text: &[u8],
    last: &[usize],
    scratch: &mut [u8],
    out: &mut [u8],
    place: usize,
) -> usize
    ensures { WritesEntries sorts.now variables.now functions.now members.now names.now nodes.now text.now last.now out.old out.new place result }
{
    let rows = count(variables) + count(functions);
    let mut to = place;
    for slot in 0..rows {
        to = write_entry(
            sorts, variables, functions, members, names, nodes, text, last, slot, scratch, out, to,
        );
    }
    to
}
