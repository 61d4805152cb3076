// A function's lines.
ghost use Rattle.listing.specs.Entries.{WritesBody, WritesFunction};

use crate::line::{write_name, write_number_line};
use arms::write_table;
use commands::{CommandFound, command_at};
use tables::word;

// A row's first three lines and its table's, the body at a node and the argument's text told.
fn write_table_lines(
    sorts: &[u64],
    functions: &[u64],
    members: &[u64],
    names: &[u8],
    nodes: &[u64],
    text: &[u8],
    row: usize,
    offset: u64,
    size: u64,
    body: usize,
    scratch: &mut [u8],
    out: &mut [u8],
    place: usize,
) -> usize
    ensures { WritesBody sorts.now functions.now members.now names.now nodes.now text.now row offset size body out.old out.new place result }
{
    let one = write_name(b"fun=", functions, names, row, out, place);
    let two = write_number_line(b"arg=", word(functions, row, 2), out, one);
    let three = write_number_line(b"out=", word(functions, row, 3), out, two);
    write_table(
        sorts, members, names, nodes, text, offset, size, body, scratch, out, three,
    )
}

// The same by the node of the command that defines the row.
pub fn write_function(
    sorts: &[u64],
    functions: &[u64],
    members: &[u64],
    names: &[u8],
    nodes: &[u64],
    text: &[u8],
    row: usize,
    node: usize,
    scratch: &mut [u8],
    out: &mut [u8],
    place: usize,
) -> usize
    ensures { WritesFunction sorts.now functions.now members.now names.now nodes.now text.now row node out.old out.new place result }
{
    let command = command_at(nodes, text, node);
    let Ok(found) = command else {
        return place;
    };
    let CommandFound::Function {
        arg_length,
        arg_offset,
        body,
        ..
    } = found
    else {
        return place;
    };
    write_table_lines(
        sorts, functions, members, names, nodes, text, row, arg_offset, arg_length, body, scratch,
        out, place,
    )
}
