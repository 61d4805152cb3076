// The public call: refused before anything is written, or the tree.
ghost use Rattle.std.specs.Prelude.{◌≡◌, ◌/◌, length};
ghost use Rattle.reader.specs.Read.{reading, Leaves};
ghost use Rattle.reader.specs.Judge.{fit, by_phase};

use crate::tally::count_tokens;
use crate::write::write_tokens;
use arena::STRIDE;
use brackets::{Phase, Scan};
use refusals::{INPUT_LIMIT, Refusal};

#[derive(Clone, Copy)]
pub struct Reading {
    pub nodes: usize,
    pub text: usize,
    pub depth: usize,
}

// Room for what a whole tree needs: 10, 11 and 12.
fn judge_room(scan: Scan, nodes: usize, text: usize, depth: usize) -> Result<Reading, Refusal>
    ensures { result ≡ fit scan nodes text depth }
{
    if nodes < scan.nodes {
        return Err(Refusal::NodeRoom(scan.nodes));
    }
    if text < scan.text {
        return Err(Refusal::TextRoom(scan.text));
    }
    if depth < scan.most {
        return Err(Refusal::DepthRoom(scan.most));
    }
    Ok(Reading {
        nodes: scan.nodes,
        text: scan.text,
        depth: scan.most,
    })
}

// Brackets come before room: 1, 5 and 6.
fn judge(scan: Scan, nodes: usize, text: usize, depth: usize) -> Result<Reading, Refusal>
    ensures { result ≡ by_phase scan nodes text depth scan.phase }
{
    match scan.phase {
        Phase::Going => Err(Refusal::UnexpectedEnd),
        Phase::Done => judge_room(scan, nodes, text, depth),
        Phase::Unclosed => Err(Refusal::UnclosedSExpr),
        Phase::Trailing => Err(Refusal::TrailingTokens),
    }
}

// Reads one S-expression into the lent nodes and text; the stack is used, and as much of it as was used is zeroed.
pub fn parse_sexpr(
    input: &[u8],
    nodes: &mut [u64],
    text: &mut [u8],
    stack: &mut [u64],
) -> Result<Reading, Refusal>
    ensures { Leaves (reading nodes.old text.old stack.old input.now) result nodes.new text.new stack.new }
{
    if INPUT_LIMIT < input.len() {
        return Err(Refusal::InputTooLong);
    }
    let table = lexicon::class_table();
    // A lexical fault comes before any of brackets, and before want of room.
    let scan = count_tokens(&table, input)?;
    let reading = judge(scan, nodes.len() / STRIDE, text.len(), stack.len())?;
    write_tokens(&table, input, nodes, text, stack);
    brackets::clear(stack, reading.depth);
    Ok(reading)
}
