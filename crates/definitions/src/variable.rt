// A variable's definition: its sort, its value, and both against the table.
ghost use Rattle.std.specs.Prelude.{◌≡◌};
ghost use Rattle.definitions.specs.Measure.{declared_as, VariableAt};

use crate::value::check_value;
use refusals::Refusal;
use sorts::{LEVELS, read_sort};

// A value of the row, which the table has to have too.
fn declared_as(
    measured: Result<usize, Refusal>,
    row: usize,
    declared: usize,
) -> Result<usize, Refusal>
    ensures { result ≡ declared_as measured row declared }
{
    let need = measured?;
    if declared != row {
        return Err(Refusal::UnmatchedType);
    }
    Ok(need)
}

// The sort is read first, and the value expects it; 16 where the value's sort or the table's is another.
pub fn check_variable(
    sorts: &[u64],
    fields: &[u64],
    members: &[u64],
    names: &[u8],
    nodes: &[u64],
    text: &[u8],
    declared: usize,
    sort: usize,
    value: usize,
) -> Result<usize, Refusal>
    ensures { VariableAt sorts.now fields.now members.now names.now nodes.now text.now declared sort value result }
{
    let row = read_sort(sorts, names, nodes, text, sort, LEVELS)?;
    let measured = check_value(sorts, fields, members, names, nodes, text, row, value);
    declared_as(measured, row, declared)
}
