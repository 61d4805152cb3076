// A command's parts are taken out one after the other; the first that is not there refuses the command.
ghost use Rattle.std.specs.Prelude.{◌+◌};
ghost use Rattle.commands.specs.CommandShows.{CommandAt, FiveAt, ArgumentsAt, LastAt, fifth};

use crate::pair::pair_at;
use arena::{after, text_is};
use refusals::Refusal;
use shapes::{list_at, symbol_at};

// A command, with its names' texts and the nodes of its other parts.
#[derive(Clone, Copy)]
pub enum CommandFound {
    Variable {
        size: u64,
        offset: u64,
        sort: usize,
        value: usize,
    },
    Function {
        size: u64,
        offset: u64,
        arg_length: u64,
        arg_offset: u64,
        arg_sort: usize,
        sort: usize,
        body: usize,
    },
}

// () or ((ARG SORT)), so many parts from a node on.
fn arguments(
    nodes: &[u64],
    size: u64,
    offset: u64,
    first: usize,
    count: u64,
    sort: usize,
    body: usize,
) -> Result<CommandFound, Refusal>
    ensures arguments_at { ArgumentsAt nodes.now size offset first count sort body result }
    ensures last_at { LastAt body result }
{
    if count == 0 {
        return Ok(CommandFound::Variable {
            size,
            offset,
            sort,
            value: body,
        });
    }
    if count != 1 {
        return Err(Refusal::UnexpectedModel);
    }
    let Some(pair) = pair_at(nodes, first) else {
        return Err(Refusal::UnexpectedModel);
    };
    Ok(CommandFound::Function {
        size,
        offset,
        arg_length: pair.size,
        arg_offset: pair.offset,
        arg_sort: pair.second,
        sort,
        body,
    })
}

// The five parts of a command from a node on.
fn five(nodes: &[u64], text: &[u8], first: usize) -> Result<CommandFound, Refusal>
    ensures five_at { FiveAt nodes.now text.now first result }
    ensures last_at { LastAt (fifth nodes.now first) result }
{
    let Some(word) = symbol_at(nodes, first) else {
        return Err(Refusal::UnexpectedModel);
    };
    let second = after(nodes, first);
    let Some(name) = symbol_at(nodes, second) else {
        return Err(Refusal::UnexpectedModel);
    };
    let third = after(nodes, second);
    let Some(count) = list_at(nodes, third) else {
        return Err(Refusal::UnexpectedModel);
    };
    if text_is(text, word.offset, word.size, b"define-fun") {
        let sort = after(nodes, third);
        let body = after(nodes, sort);
        return arguments(nodes, name.size, name.offset, third + 1, count, sort, body);
    }
    Err(Refusal::UnexpectedModel)
}

// The command at a node.
pub fn command_at(nodes: &[u64], text: &[u8], at: usize) -> Result<CommandFound, Refusal>
    ensures command_at { CommandAt nodes.now text.now at result }
    ensures last_at { LastAt (fifth nodes.now (at + 1)) result }
{
    let Some(count) = list_at(nodes, at) else {
        return Err(Refusal::UnexpectedModel);
    };
    if count != 5 {
        return Err(Refusal::UnexpectedModel);
    }
    five(nodes, text, at + 1)
}
