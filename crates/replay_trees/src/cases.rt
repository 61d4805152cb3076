// One case: an input in hexadecimal, read in plenty of room or in rooms of its own.
ghost use Rattle.std.specs.Prelude.{◌≤◌};

use crate::shows;

// What stands in each lent word before a call.
const MARK: u64 = 0xEEEEEEEEEEEEEEEE;

// `R` and three numbers of four digits are the rooms: words, text bytes and stack entries.
pub fn answer(
    case: &[u8],
    bytes: &mut [u8],
    nodes: &mut [u64],
    text: &mut [u8],
    stack: &mut [u64],
    line: &mut [u8],
) {
    if case.starts_with(b"R") {
        in_rooms(case, bytes, nodes, text, stack, line);
    } else {
        in_plenty(case, bytes, nodes, text, stack, line);
    }
}

fn in_plenty(
    case: &[u8],
    bytes: &mut [u8],
    nodes: &mut [u64],
    text: &mut [u8],
    stack: &mut [u64],
    line: &mut [u8],
) {
    let count = replay::unhex(case, bytes);
    let found = reader::parse_sexpr(&bytes[..count], nodes, text, stack);
    shows::reading(found, nodes, text, line);
}

// The room that a field asks for, as far as there is so much; a field that is no number asks for none.
fn room(field: &[u8], most: usize) -> usize
    ensures { result ≤ most }
{
    most.min((replay::number(field).low % 65536) as usize)
}

fn in_rooms(
    case: &[u8],
    bytes: &mut [u8],
    nodes: &mut [u64],
    text: &mut [u8],
    stack: &mut [u64],
    line: &mut [u8],
) {
    if case.len() < 17 {
        return;
    }
    let words = room(&case[2..6], nodes.len());
    let letters = room(&case[7..11], text.len());
    let brackets = room(&case[12..16], stack.len());
    let count = replay::unhex(&case[17..], bytes);
    in_marked(
        &bytes[..count],
        &mut nodes[..words],
        &mut text[..letters],
        &mut stack[..brackets],
        line,
    );
}

// All that is lent is marked first and shown afterwards.
fn in_marked(input: &[u8], nodes: &mut [u64], text: &mut [u8], stack: &mut [u64], line: &mut [u8]) {
    nodes.fill(MARK);
    replay::mark_bytes(text);
    stack.fill(MARK);
    let found = reader::parse_sexpr(input, nodes, text, stack);
    shows::lent(found, nodes, text, stack, line);
}
