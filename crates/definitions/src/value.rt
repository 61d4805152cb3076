// A value that has to be of a row's sort.
ghost use Rattle.definitions.specs.Measure.{ValueAt};

use crate::measure::value_of;
use literals::decode_literal;
use refusals::Refusal;
use sorts::LEVELS;

// The value expects the row; 16 where its sort is another.
pub fn check_value(
    sorts: &[u64],
    fields: &[u64],
    members: &[u64],
    names: &[u8],
    nodes: &[u64],
    text: &[u8],
    row: usize,
    value: usize,
) -> Result<usize, Refusal>
    ensures { ValueAt sorts.now fields.now members.now names.now nodes.now text.now row value result }
{
    let expected = Some(row);
    let literal = decode_literal(
        sorts, fields, members, names, nodes, text, value, expected, LEVELS,
    );
    value_of(literal, row)
}
