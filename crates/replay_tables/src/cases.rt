// One case: its first byte says what is asked, and its fields are in hexadecimal, a space between two.
ghost use Rattle.replay_tables.specs.Rooms.{Within};

use crate::rooms::{Tables, front};
use crate::{fields, rooms, shows};
use replay::split_field;
use tables::Wanted;
use tables_text::Counts;

// `T` a text read in plenty of room, `R` one in rooms of its own, `K` the check of words, `F` what is found in a text's tables.
pub fn answer(case: &[u8], line: &mut [u8]) {
    match case {
        [b'K', _, rest @ ..] => words(rest, line),
        [b'F', _, rest @ ..] => search(rest, line),
        [b'R', _, rest @ ..] => in_rooms(rest, line),
        [_, _, rest @ ..] => in_plenty(rest, line),
        _ => {}
    }
}

fn in_plenty(case: &[u8], line: &mut [u8]) {
    let plenty = Counts {
        sorts: rooms::ROWS,
        fields: rooms::FIELDS,
        variables: rooms::ROWS,
        functions: rooms::ROWS,
        members: rooms::ROWS,
    };
    read(case, plenty, line);
}

// The first field has the five rooms in words.
fn in_rooms(case: &[u8], line: &mut [u8]) {
    let (field, rest) = split_field(case);
    let mut asked = [0u64; 5];
    fields::put_words(field, &mut asked);
    let lent = Counts {
        sorts: fields::least(asked[0], rooms::ROWS),
        fields: fields::least(asked[1], rooms::FIELDS),
        variables: fields::least(asked[2], rooms::ROWS),
        functions: fields::least(asked[3], rooms::ROWS),
        members: fields::least(asked[4], rooms::ROWS),
    };
    read(rest, lent, line);
}

// The text of the first field, read in rooms of so many words.
fn read(case: &[u8], lent: Counts, line: &mut [u8])
    requires { Within lent }
{
    let (field, _) = split_field(case);
    let mut text = rooms::text_bytes();
    let count = fields::put_bytes(field, &mut text);
    let mut sorts = rooms::row_words();
    let mut fields = rooms::field_words();
    let mut variables = rooms::row_words();
    let mut functions = rooms::row_words();
    let mut members = rooms::row_words();
    read_in(
        &text[..count],
        &mut sorts[..lent.sorts],
        &mut fields[..lent.fields],
        &mut variables[..lent.variables],
        &mut functions[..lent.functions],
        &mut members[..lent.members],
        line,
    );
}

fn read_in(
    text: &[u8],
    sorts: &mut [u64],
    fields: &mut [u64],
    variables: &mut [u64],
    functions: &mut [u64],
    members: &mut [u64],
    line: &mut [u8],
) {
    let found = tables_text::read_tables(text, sorts, fields, variables, functions, members);
    let tables = Tables {
        sorts,
        fields,
        variables,
        functions,
        members,
    };
    shows::reading(found, text, tables, line);
}

// The words of the five tables, and the bytes that names and texts stand in.
fn words(case: &[u8], line: &mut [u8]) {
    let (first, rest) = split_field(case);
    let (second, rest) = split_field(rest);
    let (third, rest) = split_field(rest);
    let (fourth, rest) = split_field(rest);
    let (fifth, rest) = split_field(rest);
    let (last, _) = split_field(rest);
    let mut sorts = rooms::row_words();
    let mut fields = rooms::field_words();
    let mut variables = rooms::row_words();
    let mut functions = rooms::row_words();
    let mut members = rooms::row_words();
    let mut text = rooms::text_bytes();
    let a = fields::put_words(first, &mut sorts);
    let b = fields::put_words(second, &mut fields);
    let c = fields::put_words(third, &mut variables);
    let d = fields::put_words(fourth, &mut functions);
    let e = fields::put_words(fifth, &mut members);
    let count = fields::put_bytes(last, &mut text);
    let answer = tables::check_tables(
        &sorts[..a],
        &fields[..b],
        &variables[..c],
        &functions[..d],
        &members[..e],
        &text[..count],
    );
    shows::check(answer, line);
}

// What is looked for, a letter and a field, and the tables' text.
fn search(case: &[u8], line: &mut [u8]) {
    let (_, rest) = split_field(case);
    let (_, rest) = split_field(rest);
    let (field, _) = split_field(rest);
    let mut text = rooms::text_bytes();
    let count = fields::put_bytes(field, &mut text);
    search_in(case, &text[..count], line);
}

fn search_in(case: &[u8], text: &[u8], line: &mut [u8]) {
    let mut sorts = rooms::row_words();
    let mut fields = rooms::field_words();
    let mut variables = rooms::row_words();
    let mut functions = rooms::row_words();
    let mut members = rooms::row_words();
    let read = tables_text::read_tables(
        text,
        &mut sorts,
        &mut fields,
        &mut variables,
        &mut functions,
        &mut members,
    );
    let Ok(counts) = read else {
        return shows::row(None, line);
    };
    let tables = Tables {
        sorts: front(&sorts, counts.sorts),
        fields: front(&fields, counts.fields),
        variables: front(&variables, counts.variables),
        functions: front(&functions, counts.functions),
        members: front(&members, counts.members),
    };
    shows::row(find(case, text, tables), line);
}

// `v` `f` `m` a variable's, function's or enum member's name, `n` a sort's name, `s` a sort's kind and number.
fn find(case: &[u8], names: &[u8], tables: Tables<'_>) -> Option<usize> {
    let [kind, _, rest @ ..] = case else {
        return None;
    };
    let (field, _) = split_field(rest);
    let mut key = [0u64; 2];
    let mut room = [0u8; 64];
    if *kind == b's' {
        fields::put_words(field, &mut key);
        return tables::find_sort(tables.sorts, wanted(key[0], key[1]));
    }
    let count = fields::put_bytes(field, &mut room);
    let name = &room[..count];
    match *kind {
        b'v' => tables::find_variable(tables.variables, names, name),
        b'f' => tables::find_function(tables.functions, names, name),
        b'm' => tables::find_member(tables.members, names, name),
        _ => tables::find_sort_name(tables.sorts, names, name),
    }
}

fn wanted(kind: u64, number: u64) -> Wanted {
    match kind {
        1 => Wanted::Bool,
        2 => Wanted::String,
        3 => Wanted::Decimal,
        4 => Wanted::Datetime,
        5 => Wanted::Duration,
        6 => Wanted::BitVec(number),
        7 => Wanted::Option(number),
        _ => Wanted::Set(number),
    }
}
