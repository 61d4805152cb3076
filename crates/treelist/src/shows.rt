// An answer, as lines on standard output; they are gathered in a lent buffer and written when it is nearly full.
ghost use Rattle.std.specs.Prelude.{length};
ghost use Rattle.replay.specs.Places.{Onward};

use arena::STRIDE;
use reader::Reading;
use refusals::Refusal;
use replay::OUTPUT;

// A word takes at most twenty digits and what parts it from the next.
const WORD_ROOM: usize = 21;

// A name and a number, as a line of its own.
fn put_line(name: &[u8], number: usize, line: &mut [u8], start: usize) -> usize
    ensures { Onward (length line.old) start result }
{
    let end = replay::put_named(name, number, line, start);
    replay::put(b"\n", line, end)
}

pub fn refusal(why: Refusal, line: &mut [u8]) {
    let first = put_line(b"refused=", why.number() as usize, line, 0);
    let end = put_line(b"detail=", why.detail(), line, first);
    replay::flush(line, end);
}

// The needs, the nodes and the text of a tree that was read.
pub fn tree(found: Reading, nodes: &[u64], text: &[u8], line: &mut [u8]) {
    if nodes.len() / STRIDE < found.nodes || text.len() < found.text {
        return;
    }
    needs(found, line);
    list_nodes(&nodes[..found.nodes * STRIDE], line);
    replay::write_hex(&text[..found.text], line);
    io::write_all(OUTPUT, b"\n");
}

fn needs(found: Reading, line: &mut [u8]) {
    let first = put_line(b"nodes=", found.nodes, line, 0);
    let second = put_line(b"text=", found.text, line, first);
    let end = put_line(b"depth=", found.depth, line, second);
    replay::flush(line, end);
}

// Each node's words as a line.
fn list_nodes(words: &[u64], line: &mut [u8]) {
    let mut end = 0;
    for (at, word) in words.iter().enumerate() {
        let start = replay::room(line, end, WORD_ROOM);
        end = put_node_word(*word, at, line, start);
    }
    replay::flush(line, end);
}

// A word, and what parts it from the next: a node's last one ends the line.
fn put_node_word(word: u64, at: usize, line: &mut [u8], start: usize) -> usize
    ensures { Onward (length line.old) start result }
{
    let end = replay::put_number(word, line, start);
    let parting = if at % STRIDE == STRIDE - 1 {
        b"\n"
    } else {
        b" "
    };
    replay::put(parting, line, end)
}
