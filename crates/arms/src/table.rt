// A function's table: its arms in order, the last of each key, and its default.
ghost use Rattle.arms.specs.Table.{WritesElse, WritesTable};

use crate::chain::write_chain;
use crate::settle::settle;
use crate::tests::write_tests;
use commands::{Disjunction, tests_at};
use lent::put;
use sorts::LEVELS;
use value_text::write_inside;

// The line of the default at a node.
fn write_else(
    sorts: &[u64],
    members: &[u64],
    names: &[u8],
    nodes: &[u64],
    text: &[u8],
    at: usize,
    scratch: &mut [u8],
    out: &mut [u8],
    place: usize,
) -> usize
    ensures { WritesElse sorts.now members.now names.now nodes.now text.now at out.old out.new place result }
{
    let one = put(b"else=", out, place);
    let two = write_inside(
        sorts, members, names, nodes, text, at, LEVELS, scratch, out, one,
    );
    put(b"\n", out, two)
}

// The body at a node; the argument's name is the text from an offset on. Answers the place after the table.
pub fn write_table(
    sorts: &[u64],
    members: &[u64],
    names: &[u8],
    nodes: &[u64],
    text: &[u8],
    offset: u64,
    size: u64,
    body: usize,
    scratch: &mut [u8],
    out: &mut [u8],
    place: usize,
) -> usize
    ensures { WritesTable sorts.now members.now names.now nodes.now text.now offset size body out.old out.new place result }
{
    match tests_at(nodes, text, body) {
        Some(Disjunction { first, count }) => {
            let end = write_tests(
                sorts, members, names, nodes, text, offset, size, first, count, scratch, out, place,
            );
            let next = settle(scratch, out, place, end);
            put(b"else=false\n", out, next)
        }
        None => {
            let chained = write_chain(
                sorts, members, names, nodes, text, offset, size, body, scratch, out, place,
            );
            let next = settle(scratch, out, place, chained.place);
            write_else(
                sorts,
                members,
                names,
                nodes,
                text,
                chained.node,
                scratch,
                out,
                next,
            )
        }
    }
}
