// A variable's lines.
ghost use Rattle.listing.specs.Entries.{WritesVariable};

use crate::line::{write_name, write_number_line};
use lent::put;
use sorts::LEVELS;
use tables::word;
use value_text::write_inside;

// A row's three lines, its value at a node.
pub fn write_variable(
    sorts: &[u64],
    variables: &[u64],
    members: &[u64],
    names: &[u8],
    nodes: &[u64],
    text: &[u8],
    row: usize,
    value: usize,
    scratch: &mut [u8],
    out: &mut [u8],
    place: usize,
) -> usize
    ensures { WritesVariable sorts.now variables.now members.now names.now nodes.now text.now row value out.old out.new place result }
{
    let one = write_name(b"var=", variables, names, row, out, place);
    let two = write_number_line(b"sort=", word(variables, row, 2), out, one);
    let three = put(b"value=", out, two);
    let four = write_inside(
        sorts, members, names, nodes, text, value, LEVELS, scratch, out, three,
    );
    put(b"\n", out, four)
}
