// One case: the form's number and its parts in hexadecimal.
ghost use Rattle.std.specs.Prelude.{◌≤◌, length};

use crate::forms::{Form, Parts};
use crate::lists::{comma_ends, dotted_ends, letters};
use crate::rooms;
use replay::next_field;

// What the ends of the two lists are: the lists' commas, or fields of their own, which begin at two places.
// Stays: two cases by name, since both say where the ends are, and `None` would say that there are none.
#[derive(Clone, Copy)]
enum Ends {
    Commas,
    Fields(usize, usize),
}

// The form, where its parts begin, and the ends of those that are lists.
// Stays: places in the case in place of slices, since `comma_ends` and `dotted_ends` look for the byte after an end also behind its field.
#[derive(Clone, Copy)]
struct Places {
    form: Form,
    name: usize,
    first: usize,
    second: usize,
    body: usize,
    ends: Ends,
}

pub fn answer(case: &[u8], line: &mut [u8]) {
    match case {
        [b'E', _, form, ..] => in_places(case, tabled(case, Form::from(*form)), line),
        [form, ..] => in_places(case, listed(case, Form::from(*form)), line),
        [] => {}
    }
}

// The second and third part are taken for lists also where the form has texts there; it does not ask for their ends.
fn listed(case: &[u8], form: Form) -> Places {
    let name = next_field(case, 0);
    let first = next_field(case, name);
    let second = next_field(case, first);
    let body = next_field(case, second);
    Places {
        form,
        name,
        first,
        second,
        body,
        ends: Ends::Commas,
    }
}

// `E` before the form: a list's ends are a field behind it, which in the last place is the body where the form has one.
fn tabled(case: &[u8], form: Form) -> Places {
    let name = next_field(case, 2);
    let first = next_field(case, name);
    let ends = next_field(case, first);
    let second = next_field(case, ends);
    let body = next_field(case, second);
    Places {
        form,
        name,
        first,
        second,
        body,
        ends: Ends::Fields(ends, body),
    }
}

// Stays: arrays of a fixed length with lengths beside them, since a program has fixed memory and no heap.
fn in_places(case: &[u8], places: Places, line: &mut [u8]) {
    let mut a = io::buffer();
    let mut b = io::buffer();
    let mut c = io::buffer();
    let mut d = io::buffer();
    let mut ends = replay::stack_words();
    let mut more = replay::stack_words();
    let (count, others) = match places.ends {
        Ends::Commas => (
            comma_ends(case, places.first, &mut ends),
            comma_ends(case, places.second, &mut more),
        ),
        Ends::Fields(first, second) => (
            dotted_ends(case, first, &mut ends),
            dotted_ends(case, second, &mut more),
        ),
    };
    let name = letters(case, places.name, &mut a);
    let first = letters(case, places.first, &mut b);
    let second = letters(case, places.second, &mut c);
    let body = letters(case, places.body, &mut d);
    let parts = Parts {
        form: places.form,
        a: &a[..name],
        b: &b[..first],
        ends: &ends[..count],
        c: &c[..second],
        more: &more[..others],
        d: &d[..body],
    };
    rooms::answer(parts, line);
}
