// Values without another one in them.
ghost use Rattle.std.specs.Prelude.{◌≡◌, ◌||◌, [], ◌∷◌, ◌++◌, ◌%◌, ◌^◌};
ghost use Rattle.ground.specs.Bytes.{bytes};
ghost use Rattle.lent.specs.Put.{Offers};
ghost use Rattle.decimals.specs.Decimal.{decimal, signed_decimal};
ghost use Rattle.words.specs.Pair.{value};
ghost use Rattle.words.specs.Extension.{signed};
ghost use Rattle.arena.specs.Text.{text_at, same_text};
ghost use Rattle.shapes.specs.Shows.{ext_of};
ghost use Rattle.values.specs.Value.{v_bits, v_string, v_entity, v_ext};
ghost use Rattle.values.specs.Text.{text as shown, mark};
ghost use Rattle.value_text.specs.Leaf.{WordText, MemberText, EntityText, IndexedText};

use crate::hex::{write_digits, write_hex};
use arena::{Node, node_at, same};
use decimals::{write_natural, write_signed};
use forms::parse_number;
use lent::put;
use literals::hex_width;
use shapes::Kind;
use tables::{clamp, find_member, word};
use words::{Pair, low_bits};

// A number in decimal at a place, where there is room for it; answers the place after it.
pub fn write_number(number: u64, out: &mut [u8], at: usize) -> usize
    ensures { Offers out.old out.new at (decimal number) result }
{
    if out.len() < at {
        return at;
    }
    match write_natural(number, &mut out[at..]) {
        Ok(long) => at + long,
        Err(_) => at,
    }
}

// The same of a signed number.
// Stays: beside `write_number`, since one function for both would take the writer as a closure, with clauses on the rest of the buffer.
fn write_integer(number: i64, out: &mut [u8], at: usize) -> usize
    ensures { Offers out.old out.new at (signed_decimal number) result }
{
    if out.len() < at {
        return at;
    }
    match write_signed(number, &mut out[at..]) {
        Ok(long) => at + long,
        Err(_) => at,
    }
}

const COLON: u8 = b':';

// What a text begins with: letters, a number in decimal, and a byte.
pub fn write_head(letters: &[u8], number: u64, last: u8, out: &mut [u8]) -> usize
    ensures { Offers out.old out.new 0 (letters.now ++ (decimal number ++ (last ∷ []))) result }
{
    let one = put(letters, out, 0);
    let two = write_number(number, out, one);
    put(&[last], out, two)
}

// `bv`, the width, `:`, and the digits of the lowest bits.
pub fn write_bits(number: Pair, width: u64, out: &mut [u8]) -> usize
    ensures { Offers out.old out.new 0 (shown (v_bits width (value number % 2 ^ width))) result }
{
    let one = write_head(b"bv", width, COLON, out);
    write_digits(low_bits(number, width), hex_width(width), out, one)
}

// (_ bvN W)
pub fn write_indexed(text: &[u8], offset: u64, size: u64, width: u64, out: &mut [u8]) -> usize
    ensures { IndexedText (text_at text.now offset size) width out.old out.new result }
{
    let range = clamp(offset, size, text.len());
    let start = range.start;
    let end = range.end;
    let parsed = parse_number(&text[start..end]);
    match parsed {
        Ok(number) => write_bits(number, width, out),
        Err(_) => 0,
    }
}

// `s:`, and two digits a byte.
pub fn write_string(text: &[u8], offset: u64, size: u64, out: &mut [u8]) -> usize
    ensures { Offers out.old out.new 0 (shown (v_string (text_at text.now offset size))) result }
{
    let range = clamp(offset, size, text.len());
    let start = range.start;
    let end = range.end;
    let one = put(b"s:", out, 0);
    write_hex(&text[start..end], out, one)
}

// `e`, the row, `:`, and two digits a byte.
fn write_entity(row: usize, name: &[u8], out: &mut [u8]) -> usize
    ensures { Offers out.old out.new 0 (shown (v_entity row name.now)) result }
{
    let one = write_head(b"e", row as u64, COLON, out);
    write_hex(name, out, one)
}

// (NAME "text") of a row, the text at a node.
pub fn write_named(nodes: &[u64], text: &[u8], row: usize, at: usize, out: &mut [u8]) -> usize
    ensures { EntityText nodes.now text.now row at out.old out.new result }
{
    let node = node_at(nodes, at);
    let Node::String { size, offset } = node else {
        return 0;
    };
    let range = clamp(offset, size, text.len());
    let start = range.start;
    let end = range.end;
    write_entity(row, &text[start..end], out)
}

// The member of a row.
fn write_member(members: &[u64], names: &[u8], row: usize, out: &mut [u8]) -> usize
    ensures { MemberText members.now names.now row out.old out.new result }
{
    let entity = word(members, row, 2) as usize;
    let range = clamp(word(members, row, 3), word(members, row, 4), names.len());
    let start = range.start;
    let end = range.end;
    write_entity(entity, &names[start..end], out)
}

fn is_truth(name: &[u8]) -> bool
    ensures { result ≡ (same_text name.now (bytes "true") || same_text name.now (bytes "false")) }
{
    same(name, b"true") || same(name, b"false")
}

// `true`, `false`, which are written as they are read, or an enum member.
fn write_name(members: &[u64], names: &[u8], name: &[u8], out: &mut [u8]) -> usize
    ensures { WordText members.now names.now name.now out.old out.new result }
{
    if is_truth(name) {
        return put(name, out, 0);
    }
    let found = find_member(members, names, name);
    match found {
        Some(row) => write_member(members, names, row, out),
        None => 0,
    }
}

// The same of a symbol's text.
pub fn write_word(
    members: &[u64],
    names: &[u8],
    text: &[u8],
    offset: u64,
    size: u64,
    out: &mut [u8],
) -> usize
    ensures { WordText members.now names.now (text_at text.now offset size) out.old out.new result }
{
    let range = clamp(offset, size, text.len());
    let start = range.start;
    let end = range.end;
    write_name(members, names, &text[start..end], out)
}

// The letter of a mark.
fn letter_of(kind: Kind) -> u8
    ensures { mark (ext_of kind) ≡ result ∷ bytes ":" }
{
    match kind {
        Kind::Decimal => b'd',
        Kind::Datetime => b't',
        Kind::Duration => b'u',
    }
}

// The mark, and the low word read as signed.
pub fn write_extension(kind: Kind, low: u64, out: &mut [u8]) -> usize
    ensures { Offers out.old out.new 0 (shown (v_ext (ext_of kind) (signed 64 low))) result }
{
    let pair = Pair { low, high: 0 };
    let number = pair.signed_low();
    let one = put(&[letter_of(kind), COLON], out, 0);
    write_integer(number, out, one)
}
