// A case in its rooms, by the form of its reply, and its listing in no room, in just as much as it needs, and in one byte less.
ghost use Rattle.std.specs.Prelude.{◌≡◌, ◌≤◌, length};

use commands::Form;
use refusals::Refusal;

// What is lent: the program's rooms, larger ones, those without one of the four, or no tables and no words at all.
#[derive(Clone, Copy, PartialEq, Eq)]
pub enum Rooms {
    Program,
    Large,
    NoNodes,
    NoText,
    NoStack,
    NoOut,
    NoArena,
}

impl From<u8> for Rooms {
    fn from(letter: u8) -> Rooms {
        match letter.to_ascii_uppercase() {
            b'M' => Rooms::Program,
            b'N' => Rooms::NoNodes,
            b'T' => Rooms::NoText,
            b'S' => Rooms::NoStack,
            b'O' => Rooms::NoOut,
            b'A' => Rooms::NoArena,
            _ => Rooms::Large,
        }
    }
}

#[derive(Clone, Copy)]
pub struct Case<'a> {
    pub form: Form,
    pub rooms: Rooms,
    pub tables: &'a [u8],
    pub reply: &'a [u8],
}

// Room for 16,384 nodes.
// Stays: arrays of a fixed length, since a program has fixed memory and no heap.
fn node_words() -> [u64; 65536]
    ensures { 65536 ≡ length result }
{
    [0; 65536]
}

fn stack_words() -> [u64; 8192]
    ensures { 8192 ≡ length result }
{
    [0; 8192]
}

// How much of a room is lent: nothing of one that is taken away.
fn room(taken: bool, whole: usize) -> usize
    ensures { result ≤ whole }
{
    if taken { 0 } else { whole }
}

// In rooms of its own, but for the one that the case takes away.
fn list_less(case: Case<'_>, out: &mut [u8]) -> Result<usize, Refusal> {
    let mut nodes = node_words();
    let mut text = io::large_buffer();
    let mut stack = stack_words();
    let words = room(case.rooms == Rooms::NoNodes, nodes.len());
    let bytes = room(case.rooms == Rooms::NoText, text.len());
    let depth = room(case.rooms == Rooms::NoStack, stack.len());
    let size = room(case.rooms == Rooms::NoOut, out.len());
    reply::list_in(
        case.form,
        case.tables,
        case.reply,
        &mut nodes[..words],
        &mut text[..bytes],
        &mut stack[..depth],
        &mut out[..size],
    )
}

// The listing of no tables and no words, which are no arena.
fn list_nothing(form: Form, out: &mut [u8]) -> Result<usize, Refusal> {
    listing::list_form(form, &[], &[], &[], &[], &[], &[], &[], &[], out)
}

fn list(case: Case<'_>, out: &mut [u8]) -> Result<usize, Refusal> {
    match case.rooms {
        Rooms::Program => reply::list_reply(case.form, case.tables, case.reply, out),
        Rooms::NoArena => list_nothing(case.form, out),
        _ => list_less(case, out),
    }
}

// What is printed, in the program's rooms by the function behind it.
fn print(case: Case<'_>, out: &mut [u8]) -> usize {
    if case.rooms == Rooms::Program {
        return reply::print_reply(case.form, case.tables, case.reply, out);
    }
    match list(case, out) {
        Ok(count) => count,
        Err(why) => reply::put_refusal(why, out),
    }
}

// What an answer tells: a length, or a refusal's detail.
fn told(answer: Result<usize, Refusal>) -> usize {
    match answer {
        Ok(count) => count,
        Err(why) => why.detail(),
    }
}

// The need, and what the listing came to in just as much and in one byte less.
fn show_told(
    need: usize,
    full: Result<usize, Refusal>,
    short: Result<usize, Refusal>,
    line: &mut [u8],
) {
    let one = replay::put_named(b"need=", need, line, 0);
    let two = replay::put_named(b"\nfull=", told(full), line, one);
    let three = replay::put_named(b"\nshort=", told(short), line, two);
    replay::finish(line, three);
}

// The need of a listing is what it tells in no room, where a room is lent at all; it is listed in just as much, and in one byte less.
fn show_need(case: Case<'_>, out: &mut [u8], line: &mut [u8]) {
    if case.rooms == Rooms::NoOut {
        return;
    }
    let Err(Refusal::OutRoom(need)) = list(case, &mut out[..0]) else {
        return;
    };
    if out.len() < need || need == 0 {
        return;
    }
    let full = list(case, &mut out[..need]);
    let short = list(case, &mut out[..need - 1]);
    show_told(need, full, short, line);
}

pub fn show_case(case: Case<'_>) {
    let mut out = io::large_buffer();
    let mut line = io::buffer();
    let count = print(case, &mut out);
    replay::flush(&out, count);
    show_need(case, &mut out, &mut line);
    replay::finish(&mut line, 0);
}
