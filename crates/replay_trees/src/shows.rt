// An answer, as a line on standard output; it is gathered in a lent buffer and written when that is nearly full.
ghost use Rattle.std.specs.Prelude.{◌≤◌, length};

use arena::STRIDE;
use reader::Reading;
use refusals::Refusal;

// As the oracle answers: a tree, or the refusal's number.
pub fn reading(answer: Result<Reading, Refusal>, nodes: &[u64], text: &[u8], line: &mut [u8]) {
    match answer {
        Ok(found) => tree(found, nodes, text, line),
        Err(why) => refusal(why, line),
    }
}

fn refusal(why: Refusal, line: &mut [u8]) {
    let end = replay::put_refusal(why, line, 0);
    replay::finish(line, end);
}

fn tree(found: Reading, nodes: &[u64], text: &[u8], line: &mut [u8]) {
    if nodes.len() / STRIDE < found.nodes || text.len() < found.text {
        return;
    }
    write_words(
        b"nodes=",
        &nodes[..found.nodes * STRIDE],
        b" text=",
        line,
        0,
    );
    replay::write_hex(&text[..found.text], line);
    let name = replay::put(b" depth=", line, 0);
    let end = replay::put_digits(found.depth as u64, line, name);
    replay::finish(line, end);
}

// What stands in the line, the words under a name, and the name of what follows them.
fn write_words(name: &[u8], words: &[u64], next: &[u8], line: &mut [u8], start: usize)
    requires { start ≤ length line.old }
{
    let named = replay::put(name, line, start);
    let end = replay::put_words(words, STRIDE, b";", line, named);
    let to = replay::put(next, line, end);
    replay::flush(line, to);
}

// The answer with its needs or its detail, and all that was lent.
pub fn lent(
    answer: Result<Reading, Refusal>,
    nodes: &[u64],
    text: &[u8],
    stack: &[u64],
    line: &mut [u8],
) {
    let end = put_answer(answer, line);
    write_words(b" words=", nodes, b" bytes=", line, end);
    replay::write_hex(text, line);
    write_words(b" stack=", stack, b"\n", line, 0);
}

fn put_answer(answer: Result<Reading, Refusal>, line: &mut [u8]) -> usize
    ensures { result ≤ length line.old }
{
    match answer {
        Ok(found) => put_needs(found, line),
        Err(why) => replay::put_detailed(why, line, 0),
    }
}

fn put_needs(found: Reading, line: &mut [u8]) -> usize
    ensures { result ≤ length line.old }
{
    let first = replay::put_named(b"nodes=", found.nodes, line, 0);
    let second = replay::put_named(b" text=", found.text, line, first);
    replay::put_named(b" depth=", found.depth, line, second)
}
