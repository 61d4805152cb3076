// An answer, as a line on standard output; it is gathered in a lent buffer and written when that is nearly full.
use crate::rooms::{MARK, Tables, front};
use refusals::Refusal;
use tables::STRIDE;
use tables_text::Counts;

fn is_marked(words: &[u64]) -> bool {
    words.iter().all(|word| *word == MARK)
}

// So many words under a name; answers whether those behind them are as they were.
fn table(name: &[u8], words: &[u64], count: usize, row: &[u8], line: &mut [u8]) -> bool {
    let most = count.min(words.len());
    let named = replay::put(name, line, 0);
    let end = replay::put_words(&words[..most], STRIDE, row, line, named);
    replay::flush(line, end);
    is_marked(&words[most..])
}

// The tables' words and what the check says of them, or the refusal; and whether any other lent word was changed.
pub fn reading(answer: Result<Counts, Refusal>, text: &[u8], lent: Tables<'_>, line: &mut [u8]) {
    match answer {
        Ok(counts) => tables(text, lent, counts, line),
        Err(why) => refusal(why, lent, line),
    }
}

fn tables(text: &[u8], lent: Tables<'_>, counts: Counts, line: &mut [u8]) {
    let one = table(b"sorts=", lent.sorts, counts.sorts, b";", line);
    let two = table(b" fields=", lent.fields, counts.fields, b",", line);
    let three = table(b" variables=", lent.variables, counts.variables, b";", line);
    let four = table(b" functions=", lent.functions, counts.functions, b";", line);
    let five = table(b" members=", lent.members, counts.members, b";", line);
    let judged = tables::check_tables(
        front(lent.sorts, counts.sorts),
        front(lent.fields, counts.fields),
        front(lent.variables, counts.variables),
        front(lent.functions, counts.functions),
        front(lent.members, counts.members),
        text,
    );
    let parted = replay::put(b" ", line, 0);
    let end = put_checked(judged, line, parted);
    close(one && two && three && four && five, line, end);
}

fn refusal(why: Refusal, lent: Tables<'_>, line: &mut [u8]) {
    let end = put_refusal(why, line);
    let same = is_marked(lent.sorts)
        && is_marked(lent.fields)
        && is_marked(lent.variables)
        && is_marked(lent.functions)
        && is_marked(lent.members);
    close(same, line, end);
}

fn put_checked(answer: Result<(), Refusal>, line: &mut [u8], start: usize) -> usize {
    match answer {
        Ok(()) => replay::put(b"passed", line, start),
        Err(why) => replay::put_refusal(why, line, start),
    }
}

// The detail is a need, and none is 0.
fn put_refusal(why: Refusal, line: &mut [u8]) -> usize {
    if why.detail() == 0 {
        replay::put_refusal(why, line, 0)
    } else {
        replay::put_detailed(why, line, 0)
    }
}

fn close(same: bool, line: &mut [u8], end: usize) {
    if same {
        return replay::finish(line, end);
    }
    let to = replay::put(b" changed", line, end);
    replay::finish(line, to);
}

pub fn check(answer: Result<(), Refusal>, line: &mut [u8]) {
    let end = put_checked(answer, line, 0);
    replay::finish(line, end);
}

pub fn row(found: Option<usize>, line: &mut [u8]) {
    let end = match found {
        Some(at) => replay::put_named(b"row=", at, line, 0),
        None => replay::put(b"none", line, 0),
    };
    replay::finish(line, end);
}
