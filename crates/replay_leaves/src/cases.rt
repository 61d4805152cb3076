// One case: its first byte says which function it is for, and its fields are in hexadecimal.
use crate::shows;
use words::Radix;

// A capital letter names a function, and its fields follow; any other line is a string in plenty of room.
pub fn answer(case: &[u8], bytes: &mut [u8], text: &mut [u8], line: &mut [u8]) {
    match case {
        [b'T', _, fields @ ..] => string_in_room(fields, bytes, text, line),
        [kind, _, fields @ ..] if kind.is_ascii_uppercase() => leaf(*kind, fields, bytes, line),
        [kind] if kind.is_ascii_uppercase() => {}
        _ => string(case, bytes, text, line),
    }
}

// `U` the test of UTF-8, `E` an encoding, `B` `D` `X` a run of digits, `S` sign extension, `C` order, `W` a power of two,
// `I` the signed low word, `N` a number.
fn leaf(kind: u8, fields: &[u8], bytes: &mut [u8], line: &mut [u8]) {
    let (field, behind) = replay::split_field(fields);
    let first = replay::number(field);
    let second = replay::number(behind);
    let count = replay::unhex(field, bytes);
    let run = &bytes[..count];
    match kind {
        b'E' => shows::encoding(utf8::encode((first.low % (1 << 32)) as u32), line),
        b'I' => shows::signed(first.signed_low(), line),
        b'N' => shows::natural(first.low, line),
        b'S' => shows::pair(second.sign_extend(first.low), line),
        b'W' => shows::yes_or_no(second.reaches(first.low), line),
        b'C' => shows::order(first.compare(second), line),
        b'U' => shows::yes_or_no(utf8::is_utf8(run), line),
        b'B' => shows::parsed(words::parse(run, Radix::Binary), line),
        b'D' => shows::parsed(words::parse(run, Radix::Decimal), line),
        _ => shows::parsed(words::parse(run, Radix::Hexadecimal), line),
    }
}

fn string(case: &[u8], bytes: &mut [u8], text: &mut [u8], line: &mut [u8]) {
    let count = replay::unhex(case, bytes);
    let found = strings::decode_string(&bytes[..count], text);
    shows::string(found, text, line);
}

// `T`: the first field is the room, the whole of which is marked first and shown afterwards.
fn string_in_room(fields: &[u8], bytes: &mut [u8], text: &mut [u8], line: &mut [u8]) {
    let (field, _) = replay::split_field(fields);
    let room = (replay::number(field).low % 4096) as usize;
    if text.len() < room || fields.len() <= field.len() {
        return;
    }
    let count = replay::unhex(&fields[field.len() + 1..], bytes);
    string_marked(&bytes[..count], &mut text[..room], line);
}

fn string_marked(s: &[u8], room: &mut [u8], line: &mut [u8]) {
    replay::mark_bytes(room);
    let found = strings::decode_string(s, room);
    shows::lent(found, room, line);
}
