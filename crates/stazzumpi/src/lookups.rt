// The lookups of the tables, exported: each tells 1 and the row that it found, or 0 and 0.
// Stays: one function for each name that C calls; two that differ in a name alone are two exports.
ghost use Rattle.tables.specs.Lookup.{FindsVariable, FindsFunction, FindsMember, FindsNamed};
ghost use Rattle.stazzumpi.specs.Kind.{FindsKind};
ghost use Rattle.stazzumpi.specs.Outs.{LooksUp};

use refusals::Refusal;
use tables::Wanted;
use told::{code, tell_found};

#[unsafe(no_mangle)]
pub extern "C" fn stazzumpi_find_variable(
    variables: &[u64],
    names: &[u8],
    name: &[u8],
    told: &mut [u64],
) -> u64
    ensures { LooksUp (FindsVariable variables.now names.now name.now) told.old result told.new }
{
    if told.len() < 2 {
        return code(Refusal::OutRoom(2));
    }
    let answer = tables::find_variable(variables, names, name);
    tell_found(answer, told)
}

#[unsafe(no_mangle)]
pub extern "C" fn stazzumpi_find_function(
    functions: &[u64],
    names: &[u8],
    name: &[u8],
    told: &mut [u64],
) -> u64
    ensures { LooksUp (FindsFunction functions.now names.now name.now) told.old result told.new }
{
    if told.len() < 2 {
        return code(Refusal::OutRoom(2));
    }
    let answer = tables::find_function(functions, names, name);
    tell_found(answer, told)
}

#[unsafe(no_mangle)]
pub extern "C" fn stazzumpi_find_member(
    members: &[u64],
    names: &[u8],
    name: &[u8],
    told: &mut [u64],
) -> u64
    ensures { LooksUp (FindsMember members.now names.now name.now) told.old result told.new }
{
    if told.len() < 2 {
        return code(Refusal::OutRoom(2));
    }
    let answer = tables::find_member(members, names, name);
    tell_found(answer, told)
}

// An entity's or a record's row.
#[unsafe(no_mangle)]
pub extern "C" fn stazzumpi_find_sort_name(
    sorts: &[u64],
    names: &[u8],
    name: &[u8],
    told: &mut [u64],
) -> u64
    ensures { LooksUp (FindsNamed sorts.now names.now name.now) told.old result told.new }
{
    if told.len() < 2 {
        return code(Refusal::OutRoom(2));
    }
    let answer = tables::find_sort_name(sorts, names, name);
    tell_found(answer, told)
}

// Other languages have no `Wanted`: a kind and a number as a row has them stand for it.
// Stays: a match on numbers, since C gives them.
fn find_kind(sorts: &[u64], kind: u64, number: u64) -> Option<usize>
    ensures { FindsKind sorts.now kind number result }
{
    match kind {
        1 => tables::find_sort(sorts, Wanted::Bool),
        2 => tables::find_sort(sorts, Wanted::String),
        3 => tables::find_sort(sorts, Wanted::Decimal),
        4 => tables::find_sort(sorts, Wanted::Datetime),
        5 => tables::find_sort(sorts, Wanted::Duration),
        6 => tables::find_sort(sorts, Wanted::BitVec(number)),
        7 => tables::find_sort(sorts, Wanted::Option(number)),
        8 => tables::find_sort(sorts, Wanted::Set(number)),
        _ => None,
    }
}

// A sort without a name.
#[unsafe(no_mangle)]
pub extern "C" fn stazzumpi_find_sort(
    sorts: &[u64],
    kind: u64,
    number: u64,
    told: &mut [u64],
) -> u64
    ensures { LooksUp (FindsKind sorts.now kind number) told.old result told.new }
{
    if told.len() < 2 {
        return code(Refusal::OutRoom(2));
    }
    let answer = find_kind(sorts, kind, number);
    tell_found(answer, told)
}
