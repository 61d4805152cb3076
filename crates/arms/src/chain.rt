// Arms by repetition.
ghost use Rattle.arms.specs.Walk.{WritesChain};

use crate::arm::write_arm;
use commands::{Link, link_at};

// The node of the default, and the place after the last record.
#[derive(Clone, Copy)]
pub struct Chained {
    pub node: usize,
    pub place: usize,
}

// The arms of a body as records, one after the other from a place on; no nesting is spent on them.
pub fn write_chain(
    sorts: &[u64],
    members: &[u64],
    names: &[u8],
    nodes: &[u64],
    text: &[u8],
    offset: u64,
    size: u64,
    body: usize,
    scratch: &mut [u8],
    out: &mut [u8],
    place: usize,
) -> Chained
    ensures { WritesChain sorts.now members.now names.now nodes.now text.now offset size body out.old out.new place result }
{
    let mut at = body;
    let mut to = place;
    while at < nodes.len() {
        let Some(Link { test, value, rest }) = link_at(nodes, text, at) else {
            break;
        };
        if rest <= at {
            break;
        }
        to = write_arm(
            sorts, members, names, nodes, text, offset, size, test, value, scratch, out, to,
        );
        at = rest;
    }
    Chained {
        node: at,
        place: to,
    }
}
