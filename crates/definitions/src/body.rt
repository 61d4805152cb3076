// A function's body: arms by repetition, or the tests of an `or`.
ghost use Rattle.std.specs.Prelude.{◌≡◌};
ghost use Rattle.definitions.specs.Measure.{bool_row, closed_as, test_as, ArmAt, TestAt, ChainAt, TestsOf, BodyAt};

use crate::measure::{arm_of, value_of};
use arena::after;
use commands::{Disjunction, key_at, link_at, tests_at};
use literals::{decode_literal, plus};
use refusals::Refusal;
use sorts::LEVELS;
use tables::{SortRow, sort_at};

// `else=` and a line end.
const ELSE: usize = 6;

// `else=false` and a line end.
const FALSE: usize = 11;

// `when=`, `then=true` and two line ends.
const TEST: usize = 16;

fn closed_as(total: usize, last: Result<usize, Refusal>) -> Result<usize, Refusal>
    ensures { result ≡ closed_as total last }
{
    Ok(plus(plus(total, last?), ELSE))
}

fn test_as(key: Result<usize, Refusal>) -> Result<usize, Refusal>
    ensures { result ≡ test_as key }
{
    Ok(plus(key?, TEST))
}

// (ite TEST VALUE ..), by the nodes of both; the argument's name is the text from an offset on.
fn check_arm(
    sorts: &[u64],
    fields: &[u64],
    members: &[u64],
    names: &[u8],
    nodes: &[u64],
    text: &[u8],
    offset: u64,
    size: u64,
    argument: usize,
    res: usize,
    test: usize,
    value: usize,
) -> Result<usize, Refusal>
    ensures { ArmAt sorts.now fields.now members.now names.now nodes.now text.now offset size argument res test value result }
{
    let node = key_at(nodes, text, test, offset, size).ok_or(Refusal::UnexpectedForm)?;
    let key = decode_literal(
        sorts, fields, members, names, nodes, text, node, None, LEVELS,
    );
    let expected = Some(res);
    let literal = decode_literal(
        sorts, fields, members, names, nodes, text, value, expected, LEVELS,
    );
    arm_of(key, literal, argument, res)
}

// One test of an `or`.
fn check_test(
    sorts: &[u64],
    fields: &[u64],
    members: &[u64],
    names: &[u8],
    nodes: &[u64],
    text: &[u8],
    offset: u64,
    size: u64,
    argument: usize,
    test: usize,
) -> Result<usize, Refusal>
    ensures { TestAt sorts.now fields.now members.now names.now nodes.now text.now offset size argument test result }
{
    let node = key_at(nodes, text, test, offset, size).ok_or(Refusal::UnexpectedForm)?;
    let key = decode_literal(
        sorts, fields, members, names, nodes, text, node, None, LEVELS,
    );
    test_as(value_of(key, argument))
}

// Arms up to a default; no nesting is spent on them.
fn check_chain(
    sorts: &[u64],
    fields: &[u64],
    members: &[u64],
    names: &[u8],
    nodes: &[u64],
    text: &[u8],
    offset: u64,
    size: u64,
    argument: usize,
    res: usize,
    body: usize,
) -> Result<usize, Refusal>
    ensures { ChainAt sorts.now fields.now members.now names.now nodes.now text.now offset size argument res body result }
{
    let mut at = body;
    let mut total: usize = 0;
    while at < nodes.len() {
        let Some(link) = link_at(nodes, text, at) else {
            let expected = Some(res);
            let literal = decode_literal(
                sorts, fields, members, names, nodes, text, at, expected, LEVELS,
            );
            return closed_as(total, value_of(literal, res));
        };
        let need = check_arm(
            sorts, fields, members, names, nodes, text, offset, size, argument, res, link.test,
            link.value,
        )?;
        if link.rest <= at {
            return Err(Refusal::UnexpectedForm);
        }
        total = plus(total, need);
        at = link.rest;
    }
    Err(Refusal::UnexpectedForm)
}

// So many tests from a node on; elsewhere the value is false.
fn check_tests(
    sorts: &[u64],
    fields: &[u64],
    members: &[u64],
    names: &[u8],
    nodes: &[u64],
    text: &[u8],
    offset: u64,
    size: u64,
    argument: usize,
    first: usize,
    count: u64,
) -> Result<usize, Refusal>
    ensures { TestsOf sorts.now fields.now members.now names.now nodes.now text.now offset size argument first count result }
{
    let mut at = first;
    let mut total: usize = 0;
    for _ in 0..count {
        let need = check_test(
            sorts, fields, members, names, nodes, text, offset, size, argument, at,
        )?;
        total = plus(total, need);
        at = after(nodes, at);
    }
    Ok(plus(total, FALSE))
}

fn is_bool(sort: SortRow) -> bool
    ensures { result ≡ bool_row sort }
{
    matches!(sort, SortRow::Bool)
}

// A body headed `or` needs the result bool before its first test is looked at.
pub fn check_body(
    sorts: &[u64],
    fields: &[u64],
    members: &[u64],
    names: &[u8],
    nodes: &[u64],
    text: &[u8],
    offset: u64,
    size: u64,
    argument: usize,
    res: usize,
    body: usize,
) -> Result<usize, Refusal>
    ensures { BodyAt sorts.now fields.now members.now names.now nodes.now text.now offset size argument res body result }
{
    let Some(Disjunction { first, count }) = tests_at(nodes, text, body) else {
        return check_chain(
            sorts, fields, members, names, nodes, text, offset, size, argument, res, body,
        );
    };
    if !is_bool(sort_at(sorts, res)) {
        return Err(Refusal::UnmatchedType);
    }
    check_tests(
        sorts, fields, members, names, nodes, text, offset, size, argument, first, count,
    )
}
