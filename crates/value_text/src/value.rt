// The value writer, the members of a set and the fields of a record call each other: one level is spent on each value.
ghost use Rattle.lent.specs.Put.{Offers};
ghost use Rattle.value_text.specs.Value.{WritesValue, WritesInside, WritesMembers, WritesFields, comma};

use crate::open::{Opened, open_value};
use crate::set::close_set;
use arena::after;
use lent::put;
use literals::plus;
use runs::END;
use shapes::{Found, shape_at};

// The value at a node in the rest of the buffer from a place on; answers the place after it.
#[cycle(write_fields_write_inside_write_members_write_value)]
pub fn write_inside(
    sorts: &[u64],
    members: &[u64],
    names: &[u8],
    nodes: &[u64],
    text: &[u8],
    at: usize,
    allow: usize,
    scratch: &mut [u8],
    out: &mut [u8],
    place: usize,
) -> usize
    ensures { WritesInside sorts.now members.now names.now nodes.now text.now at allow out.old out.new place result }
{
    if out.len() < place {
        return place;
    }
    let count = write_value(
        sorts,
        members,
        names,
        nodes,
        text,
        at,
        allow,
        scratch,
        &mut out[place..],
    );
    plus(place, count)
}

// The members of the set at a node as they stand, each ended, from a place on; so many levels are below the node.
#[cycle(write_fields_write_inside_write_members_write_value)]
fn write_members(
    sorts: &[u64],
    members: &[u64],
    names: &[u8],
    nodes: &[u64],
    text: &[u8],
    at: usize,
    below: usize,
    scratch: &mut [u8],
    out: &mut [u8],
    place: usize,
) -> usize
    ensures { WritesMembers sorts.now members.now names.now nodes.now text.now at below out.old out.new place result }
{
    let shape = shape_at(nodes, text, at);
    match shape {
        Found::Singleton { value } => {
            let one = write_inside(
                sorts, members, names, nodes, text, value, below, scratch, out, place,
            );
            put(&[END], out, one)
        }
        Found::Union { left, right } => {
            if below == 0 {
                return place;
            }
            let one = write_members(
                sorts,
                members,
                names,
                nodes,
                text,
                left,
                below - 1,
                scratch,
                out,
                place,
            );
            write_members(
                sorts,
                members,
                names,
                nodes,
                text,
                right,
                below - 1,
                scratch,
                out,
                one,
            )
        }
        _ => place,
    }
}

// What stands before field i.
fn write_comma(i: u64, out: &mut [u8], place: usize) -> usize
    ensures { Offers out.old out.new place (comma i) result }
{
    if i == 0 {
        return place;
    }
    put(b",", out, place)
}

// So many fields from a node on, a comma between two, from a place on.
#[cycle(write_fields_write_inside_write_members_write_value)]
fn write_fields(
    sorts: &[u64],
    members: &[u64],
    names: &[u8],
    nodes: &[u64],
    text: &[u8],
    first: usize,
    count: u64,
    allow: usize,
    scratch: &mut [u8],
    out: &mut [u8],
    place: usize,
) -> usize
    ensures { WritesFields sorts.now members.now names.now nodes.now text.now first count allow out.old out.new place result }
{
    let mut at = first;
    let mut to = place;
    for i in 0..count {
        let one = write_comma(i, out, to);
        to = write_inside(
            sorts, members, names, nodes, text, at, allow, scratch, out, one,
        );
        at = after(nodes, at);
    }
    to
}

// The value at a node at the front of what is lent, with so many levels; answers how long its text is. The members of a set are written as they stand, and brought into order once. The scratch may have any length.
#[cycle(write_fields_write_inside_write_members_write_value)]
pub fn write_value(
    sorts: &[u64],
    members: &[u64],
    names: &[u8],
    nodes: &[u64],
    text: &[u8],
    at: usize,
    allow: usize,
    scratch: &mut [u8],
    out: &mut [u8],
) -> usize
    ensures { WritesValue sorts.now members.now names.now nodes.now text.now at allow out.old out.new result }
{
    if allow == 0 {
        return 0;
    }
    let opened = open_value(sorts, members, names, nodes, text, at, out);
    match opened {
        Opened::Whole(count) => count,
        Opened::Fields {
            first,
            count,
            place,
        } => {
            let end = write_fields(
                sorts,
                members,
                names,
                nodes,
                text,
                first,
                count,
                allow - 1,
                scratch,
                out,
                place,
            );
            put(b")", out, end)
        }
        Opened::Set(place) => {
            let end = write_members(
                sorts,
                members,
                names,
                nodes,
                text,
                at,
                allow - 1,
                scratch,
                out,
                place,
            );
            close_set(out, place, end, scratch)
        }
    }
}
