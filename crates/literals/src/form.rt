// Options and sets: what is inside, what is expected there, and what is made of it.
ghost use Rattle.std.specs.Prelude.{Ok};
ghost use Rattle.literals.specs.Parts.{InsideRow, Expects, BareOf, Matches, Finishes, UnionNeed, UnionOf};

use crate::answer::{Literal, plus, value_of};
use refusals::Refusal;
use tables::{SortRow, Wanted, sort_at};

// The two sorts that hold another.
#[derive(Clone, Copy)]
pub enum Form {
    Option,
    Set,
}

// What follows the reading of the one literal inside: `(some v)`, `((as some T) v)` with T's row, `(set.singleton v)`.
#[derive(Clone, Copy)]
pub enum Then {
    Some,
    SomeAs(usize),
    Singleton,
}

// The row inside a row that is of the form.
pub fn inside_row(sorts: &[u64], row: usize, form: Form) -> Option<usize>
    ensures { InsideRow sorts.now row form result }
{
    let sort = sort_at(sorts, row);
    match form {
        Form::Option => match sort {
            SortRow::Option(inside) => Some(inside as usize),
            _ => None,
        },
        Form::Set => match sort {
            SortRow::Set(inside) => Some(inside as usize),
            _ => None,
        },
    }
}

// What is expected inside; an expected sort of another form is a mismatch.
pub fn expect_in(
    sorts: &[u64],
    expected: Option<usize>,
    form: Form,
) -> Result<Option<usize>, Refusal>
    ensures { Expects sorts.now expected form result }
{
    let Some(row) = expected else {
        return Ok(None);
    };
    match inside_row(sorts, row, form) {
        Some(inner) => Ok(Some(inner)),
        None => Err(Refusal::UnknownLiteral),
    }
}

// `none`, or `{}`, of the row that was read.
pub fn bare_of(sorts: &[u64], row: usize, form: Form) -> Result<Literal, Refusal>
    ensures { BareOf sorts.now row form result }
{
    let inside = inside_row(sorts, row, form);
    match form {
        Form::Option => match inside {
            Some(_) => Ok(Literal {
                row,
                need: 4,
                is_set: false,
            }),
            None => Err(Refusal::InvalidOptionType),
        },
        Form::Set => match inside {
            Some(_) => Ok(Literal {
                row,
                need: 2,
                is_set: true,
            }),
            None => Err(Refusal::InvalidSetType),
        },
    }
}

// A literal of the row that was asked for; one of another row is a mismatch.
fn matched(literal: Literal, wanted: usize) -> Result<Literal, Refusal>
    ensures { Matches (Ok literal) wanted result }
{
    if literal.row != wanted {
        return Err(Refusal::UnmatchedType);
    }
    Ok(literal)
}

// What is made of the one literal inside: `some(a)` takes six bytes more, `{a}` two.
pub fn finish(sorts: &[u64], inner: Literal, then: Then) -> Result<Literal, Refusal>
    ensures { Finishes sorts.now (Ok inner) «then» result }
{
    let inside = inner.row as u64;
    match then {
        Then::Some => value_of(sorts, Wanted::Option(inside), plus(inner.need, 6), false),
        Then::SomeAs(wanted) => {
            let some = value_of(sorts, Wanted::Option(inside), plus(inner.need, 6), false)?;
            matched(some, wanted)
        }
        Then::Singleton => value_of(sorts, Wanted::Set(inside), plus(inner.need, 2), true),
    }
}

// How long the text of two sets' union is, of which one may be `{}`.
fn union_need(a: usize, b: usize) -> usize
    ensures { UnionNeed a b result }
{
    if a <= 2 {
        return b;
    }
    if b <= 2 {
        return a;
    }
    plus(a, b - 1)
}

// (set.union v w), both read.
pub fn union_of(left: Literal, right: Literal) -> Result<Literal, Refusal>
    ensures { UnionOf (Ok left) (Ok right) result }
{
    if left.row != right.row {
        return Err(Refusal::UnmatchedType);
    }
    if !left.is_set || !right.is_set {
        return Err(Refusal::SetUnionNonLiterals);
    }
    Ok(Literal {
        need: union_need(left.need, right.need),
        ..left
    })
}
