// A function's definition: both sorts, then both against the table, then the body.
ghost use Rattle.definitions.specs.Measure.{FunctionAt};

use crate::body::check_body;
use refusals::Refusal;
use sorts::{LEVELS, read_sort};

// The argument's name is the text from an offset on; argument and result are the table's rows.
pub fn check_function(
    sorts: &[u64],
    fields: &[u64],
    members: &[u64],
    names: &[u8],
    nodes: &[u64],
    text: &[u8],
    argument: usize,
    res: usize,
    offset: u64,
    size: u64,
    arg_sort: usize,
    sort: usize,
    body: usize,
) -> Result<usize, Refusal>
    ensures { FunctionAt sorts.now fields.now members.now names.now nodes.now text.now argument res offset size arg_sort sort body result }
{
    let row = read_sort(sorts, names, nodes, text, arg_sort, LEVELS)?;
    let other = read_sort(sorts, names, nodes, text, sort, LEVELS)?;
    if row != argument || other != res {
        return Err(Refusal::UnmatchedType);
    }
    check_body(
        sorts, fields, members, names, nodes, text, offset, size, row, other, body,
    )
}
