// The tests of an `or` body.
ghost use Rattle.arms.specs.Walk.{WritesTests};

use crate::arm::write_test;
use arena::after;

// So many tests from a node on as records, one after the other from a place on; answers the place after the last.
pub fn write_tests(
    sorts: &[u64],
    members: &[u64],
    names: &[u8],
    nodes: &[u64],
    text: &[u8],
    offset: u64,
    size: u64,
    first: usize,
    count: u64,
    scratch: &mut [u8],
    out: &mut [u8],
    place: usize,
) -> usize
    ensures { WritesTests sorts.now members.now names.now nodes.now text.now offset size first count out.old out.new place result }
{
    let mut at = first;
    let mut to = place;
    for _ in 0..count {
        to = write_test(
            sorts, members, names, nodes, text, offset, size, at, scratch, out, to,
        );
        at = after(nodes, at);
    }
    to
}
