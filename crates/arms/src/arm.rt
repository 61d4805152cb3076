// An arm as a record of a run: its key up to the line end, what hangs on it, and the end.
ghost use Rattle.arms.specs.Arm.{WritesWhen, WritesArm, WritesTest};

use commands::key_at;
use lent::put;
use runs::END;
use sorts::LEVELS;
use value_text::write_inside;

// The key's line and what stands before the value, by the node of the test; the argument's name is the text from an offset on.
fn write_when(
    sorts: &[u64],
    members: &[u64],
    names: &[u8],
    nodes: &[u64],
    text: &[u8],
    offset: u64,
    size: u64,
    test: usize,
    scratch: &mut [u8],
    out: &mut [u8],
    place: usize,
) -> usize
    ensures { WritesWhen sorts.now members.now names.now nodes.now text.now offset size test out.old out.new place result }
{
    let Some(node) = key_at(nodes, text, test, offset, size) else {
        return place;
    };
    let one = put(b"when=", out, place);
    let two = write_inside(
        sorts, members, names, nodes, text, node, LEVELS, scratch, out, one,
    );
    put(b"\nthen=", out, two)
}

// An arm, by the nodes of its test and its value.
pub fn write_arm(
    sorts: &[u64],
    members: &[u64],
    names: &[u8],
    nodes: &[u64],
    text: &[u8],
    offset: u64,
    size: u64,
    test: usize,
    value: usize,
    scratch: &mut [u8],
    out: &mut [u8],
    place: usize,
) -> usize
    ensures { WritesArm sorts.now members.now names.now nodes.now text.now offset size test value out.old out.new place result }
{
    let one = write_when(
        sorts, members, names, nodes, text, offset, size, test, scratch, out, place,
    );
    let two = write_inside(
        sorts, members, names, nodes, text, value, LEVELS, scratch, out, one,
    );
    put(&[END], out, two)
}

// One test of an `or`: where it holds the value is true.
pub fn write_test(
    sorts: &[u64],
    members: &[u64],
    names: &[u8],
    nodes: &[u64],
    text: &[u8],
    offset: u64,
    size: u64,
    test: usize,
    scratch: &mut [u8],
    out: &mut [u8],
    place: usize,
) -> usize
    ensures { WritesTest sorts.now members.now names.now nodes.now text.now offset size test out.old out.new place result }
{
    let one = write_when(
        sorts, members, names, nodes, text, offset, size, test, scratch, out, place,
    );
    let two = put(b"true", out, one);
    put(&[END], out, two)
}
