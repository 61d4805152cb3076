// How many names are defined, and how long their lines are with repeats kept.
ghost use Rattle.std.specs.Prelude.{◌≡◌, length};
ghost use Rattle.tables.specs.Layout.{name_at};
ghost use Rattle.literals.specs.Answer.{capped};
ghost use Rattle.listing.specs.Tally.{variable_size, function_size, AddsEntry, Tallies};

use decimals::digit_count;
use literals::plus;
use tables::{clamp, count, word};
use walk::{NEED, NODE, noted};

#[derive(Clone, Copy)]
pub struct Tally {
    pub variables: usize,
    pub functions: usize,
    pub need: usize,
}

// How long a row's name is.
fn name_size(rows: &[u64], names: &[u8], row: usize) -> usize
    ensures { result ≡ length (name_at names.now rows.now row) }
{
    let range = clamp(word(rows, row, 0), word(rows, row, 1), names.len());
    range.end - range.start
}

// `var=`, `sort=`, `value=` and three line ends.
const VARIABLE: usize = 18;

// A variable's lines, where its value is so long.
fn variable_need(variables: &[u64], names: &[u8], row: usize, long: usize) -> usize
    ensures { result ≡ capped (variable_size names.now variables.now row long) }
{
    let name = name_size(variables, names, row);
    let sort = digit_count(word(variables, row, 2));
    plus(plus(plus(name, sort), VARIABLE), long)
}

// `fun=`, `arg=`, `out=` and three line ends.
const FUNCTION: usize = 15;

// A function's lines, where its table's are so long.
fn function_need(functions: &[u64], names: &[u8], row: usize, long: usize) -> usize
    ensures { result ≡ capped (function_size names.now functions.now row long) }
{
    let name = name_size(functions, names, row);
    let argument = digit_count(word(functions, row, 2));
    let result = digit_count(word(functions, row, 3));
    plus(plus(plus(plus(name, argument), result), FUNCTION), long)
}

// One slot more, where a command is noted for it.
fn add_entry(
    variables: &[u64],
    functions: &[u64],
    names: &[u8],
    last: &[usize],
    slot: usize,
    tally: Tally,
) -> Tally
    ensures { AddsEntry variables.now functions.now names.now last.now slot tally result }
{
    let node = noted(last, slot, NODE);
    if node == 0 {
        return tally;
    }
    let long = noted(last, slot, NEED);
    let rows = count(variables);
    if slot < rows {
        let size = variable_need(variables, names, slot, long);
        return Tally {
            variables: plus(tally.variables, 1),
            need: plus(tally.need, size),
            ..tally
        };
    }
    let row = slot - rows;
    let size = function_need(functions, names, row, long);
    Tally {
        functions: plus(tally.functions, 1),
        need: plus(tally.need, size),
        ..tally
    }
}

pub fn tally_entries(variables: &[u64], functions: &[u64], names: &[u8], last: &[usize]) -> Tally
    ensures { Tallies variables.now functions.now names.now last.now result }
{
    let rows = count(variables) + count(functions);
    let mut tally = Tally {
        variables: 0,
        functions: 0,
        need: 0,
    };
    for slot in 0..rows {
        tally = add_entry(variables, functions, names, last, slot, tally);
    }
    tally
}
