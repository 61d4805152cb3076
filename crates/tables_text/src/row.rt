// The lines of variables, functions and enum members.
ghost use Rattle.std.specs.Prelude.{◌≡◌, ◌≤◌, length, drop};
ghost use Rattle.tables_text.specs.Parse.{led, variable_in, function_in, member_in};
ghost use Rattle.tables_text.specs.Told.{before_told, variable_told, function_told, member_told};

use crate::line::{end_at, starts};
use crate::number::number_in;

// A number that a space ends, and where what follows the space begins.
#[derive(Clone, Copy)]
pub struct Before {
    pub number: u64,
    pub next: usize,
}

// How long the name is, and the row of its sort.
#[derive(Clone, Copy)]
pub struct VariableLine {
    pub name: usize,
    pub sort: u64,
}

#[derive(Clone, Copy)]
pub struct FunctionLine {
    pub name: usize,
    pub argument: u64,
    pub result: u64,
}

// How long the name is, the entity's row, and how long the text is, which ends the line.
#[derive(Clone, Copy)]
pub struct MemberLine {
    pub name: usize,
    pub entity: u64,
    pub text: usize,
}

fn number_before(s: &[u8], start: usize) -> Option<Before>
    requires { start ≤ length s.now }
    ensures { result ≡ before_told start (led (drop start s.now)) }
{
    let end = end_at(s, start, b' ');
    if s.len() <= end {
        return None;
    }
    let number = number_in(&s[start..end])?;
    Some(Before {
        number,
        next: end + 1,
    })
}

pub fn variable_in(s: &[u8]) -> Option<VariableLine>
    ensures { result ≡ variable_told (variable_in s.now) }
{
    if !starts(s, b"var=") {
        return None;
    }
    let end = end_at(s, 4, b' ');
    if s.len() <= end {
        return None;
    }
    let sort = number_in(&s[end + 1..])?;
    Some(VariableLine {
        name: end - 4,
        sort,
    })
}

pub fn function_in(s: &[u8]) -> Option<FunctionLine>
    ensures { result ≡ function_told (function_in s.now) }
{
    if !starts(s, b"fun=") {
        return None;
    }
    let end = end_at(s, 4, b' ');
    if s.len() <= end {
        return None;
    }
    let first = number_before(s, end + 1)?;
    let result = number_in(&s[first.next..])?;
    Some(FunctionLine {
        name: end - 4,
        argument: first.number,
        result,
    })
}

pub fn member_in(s: &[u8]) -> Option<MemberLine>
    ensures { result ≡ member_told (member_in s.now) }
{
    if !starts(s, b"enum=") {
        return None;
    }
    let end = end_at(s, 5, b' ');
    if s.len() <= end {
        return None;
    }
    let first = number_before(s, end + 1)?;
    Some(MemberLine {
        name: end - 5,
        entity: first.number,
        text: s.len() - first.next,
    })
}
