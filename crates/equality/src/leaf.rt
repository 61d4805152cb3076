// Values without another one in them: bools, strings, numbers, bits and entities.
ghost use Rattle.std.specs.Prelude.{◌≡◌, ◌&&◌, ◌+◌, ◌*◌, ◌%◌, ◌^◌, eqb};
ghost use Rattle.arena.specs.Text.{text_at, same_text};
ghost use Rattle.shapes.specs.Shows.{ext_of};
ghost use Rattle.tables.specs.Rules.{ext_kind};
ghost use Rattle.equality.specs.Leaf.{NumberIs, EntityIs};

use arena::same;
use forms::Form;
use shapes::Kind;
use tables::clamp;
use words::{Pair, low_bits};

// Whether two parts of byte strings are one.
pub fn same_at(a: &[u8], offset: u64, size: u64, b: &[u8], other: u64, long: u64) -> bool
    ensures { result ≡ same_text (text_at a.now offset size) (text_at b.now other long) }
{
    let one = clamp(offset, size, a.len());
    let two = clamp(other, long, b.len());
    let start = one.start;
    let end = one.end;
    let first = two.start;
    let last = two.end;
    same(&a[start..end], &b[first..last])
}

fn same_kind(a: Kind, b: Kind) -> bool
    ensures { result ≡ eqb (ext_kind (ext_of a)) (ext_kind (ext_of b)) }
{
    match a {
        Kind::Decimal => match b {
            Kind::Decimal => true,
            Kind::Datetime => false,
            Kind::Duration => false,
        },
        Kind::Datetime => match b {
            Kind::Decimal => false,
            Kind::Datetime => true,
            Kind::Duration => false,
        },
        Kind::Duration => match b {
            Kind::Decimal => false,
            Kind::Datetime => false,
            Kind::Duration => true,
        },
    }
}

pub fn same_number(kind: Kind, low: u64, other: Kind, word: u64) -> bool
    ensures { NumberIs kind low other word result }
{
    if low != word {
        return false;
    }
    same_kind(kind, other)
}

pub fn same_bits(width: u64, one: Pair, other: u64, two: Pair) -> bool
    ensures { result ≡ (eqb width other && eqb ((one.low + one.high * 2 ^ 64) % 2 ^ width) ((two.low + two.high * 2 ^ 64) % 2 ^ other)) }
{
    if width != other {
        return false;
    }
    let a = low_bits(one, width);
    let b = low_bits(two, other);
    if a.low != b.low {
        return false;
    }
    a.high == b.high
}

// An entity of a row whose text is a part of a byte string, and a value.
pub fn same_entity(
    names: &[u8],
    text: &[u8],
    row: usize,
    held: &[u8],
    offset: u64,
    size: u64,
    right: Form,
) -> bool
    ensures { EntityIs names.now text.now row (text_at held.now offset size) right result }
{
    match right {
        Form::Entity {
            row: other,
            offset: from,
            size: long,
        } => {
            if row != other {
                return false;
            }
            same_at(held, offset, size, text, from, long)
        }
        Form::Member {
            row: other,
            offset: from,
            size: long,
        } => {
            if row != other {
                return false;
            }
            same_at(held, offset, size, names, from, long)
        }
        _ => false,
    }
}
