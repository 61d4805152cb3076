// The check of 25: each table's size and form, each row, and that no two rows are the same.
ghost use Rattle.std.specs.Prelude.{◌≡◌, ◌&&◌, Bool, ℕ, ◌<◌};
ghost use Rattle.tables.specs.Layout.{count};
ghost use Rattle.tables.specs.Right.{right_sort, right_variable, right_function, right_member, alone, alone_sort, sized, table_passes};
ghost use Rattle.tables.specs.Check.{checked};

use crate::alone::{are_alone, are_alone_sorts};
use crate::row::{STRIDE, count};
use crate::rules::{is_function, is_member, is_sort, is_variable};
use refusals::Refusal;

const MOST_ROWS: usize = 1024;

fn is_table(rows: &[u64]) -> bool
    ensures { result ≡ sized rows.now }
{
    rows.len() % STRIDE == 0 && count(rows) <= MOST_ROWS
}

// A table's size, and each of its rows by a test.
// Inlined before all else, since the test then needs not ask again whether its row is there.
#[inline(always)]
fn rows_pass<F: Fn(usize) -> bool>(rows: &[u64], test: F) -> bool
    requires { F.IsAlwaysCallable test }
    ensures { (right : ℕ → Bool) → ((i : ℕ) (r : Bool) → i < count rows.now → F.post test i r → r ≡ right i) → result ≡ table_passes rows.now right }
{
    if !is_table(rows) {
        return false;
    }
    for i in 0..count(rows) {
        if !test(i) {
            return false;
        }
    }
    true
}

fn check_sorts(sorts: &[u64], fields: &[u64], names: &[u8]) -> bool
    ensures { result ≡ table_passes sorts.now (λ i. right_sort sorts.now fields.now names.now i && alone_sort sorts.now names.now i) }
{
    rows_pass(sorts, |i| is_sort(sorts, fields, names, i)) && are_alone_sorts(sorts, names)
}

fn check_variables(variables: &[u64], names: &[u8], sorts: usize) -> bool
    ensures { result ≡ table_passes variables.now (λ i. right_variable variables.now names.now sorts i && alone names.now variables.now i) }
{
    rows_pass(variables, |i| is_variable(variables, names, i, sorts)) && are_alone(variables, names)
}

fn check_functions(functions: &[u64], names: &[u8], sorts: usize) -> bool
    ensures { result ≡ table_passes functions.now (λ i. right_function functions.now names.now sorts i && alone names.now functions.now i) }
{
    rows_pass(functions, |i| is_function(functions, names, i, sorts)) && are_alone(functions, names)
}

fn check_members(members: &[u64], sorts: &[u64], names: &[u8]) -> bool
    ensures { result ≡ table_passes members.now (λ i. right_member members.now sorts.now names.now i && alone names.now members.now i) }
{
    rows_pass(members, |i| is_member(members, sorts, names, i)) && are_alone(members, names)
}

pub fn check_tables(
    sorts: &[u64],
    fields: &[u64],
    variables: &[u64],
    functions: &[u64],
    members: &[u64],
    names: &[u8],
) -> Result<(), Refusal>
    ensures { result ≡ checked (record { sorts = sorts.now; fields = fields.now; variables = variables.now; functions = functions.now; members = members.now; names = names.now }) }
{
    let sort_rows = count(sorts);
    if check_sorts(sorts, fields, names)
        && check_variables(variables, names, sort_rows)
        && check_functions(functions, names, sort_rows)
        && check_members(members, sorts, names)
    {
        return Ok(());
    }
    Err(Refusal::BadTable)
}
