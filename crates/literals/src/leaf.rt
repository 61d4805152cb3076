// Literals without another one in them: bit vectors, strings, words, and the extensions.
ghost use Rattle.std.specs.Prelude.{◌≡◌};
ghost use Rattle.arena.specs.Text.{text_at};
ghost use Rattle.values.specs.Text.{hex_width};
ghost use Rattle.literals.specs.Parts.{wanted_of, BitsOf, StringOf, ExtensionOf, MemberOf, WordOf};

use crate::answer::{Literal, plus, text_need, value_of};
use arena::same;
use decimals::{digit_count, signed_length};
use refusals::Refusal;
use shapes::Kind;
use tables::{Wanted, clamp, find_member, word};
use words::Pair;

// As many hex digits as the width takes.
pub fn hex_width(width: u64) -> u64
    ensures { result ≡ hex_width width }
{
    if width % 4 == 0 {
        return width / 4;
    }
    width / 4 + 1
}

// `bv`, the width, `:`, and the digits.
pub fn bits_of(sorts: &[u64], width: u64) -> Result<Literal, Refusal>
    ensures { BitsOf sorts.now width result }
{
    let need = digit_count(width) + hex_width(width) as usize + 3;
    value_of(sorts, Wanted::BitVec(width), need, false)
}

// `s:`, and two digits a byte.
pub fn string_of(sorts: &[u64], size: usize) -> Result<Literal, Refusal>
    ensures { StringOf sorts.now size result }
{
    let need = plus(plus(size, size), 2);
    value_of(sorts, Wanted::String, need, false)
}

fn wanted_of(kind: Kind) -> Wanted
    ensures { result ≡ wanted_of kind }
{
    match kind {
        Kind::Decimal => Wanted::Decimal,
        Kind::Datetime => Wanted::Datetime,
        Kind::Duration => Wanted::Duration,
    }
}

// The mark, and the low word read as signed.
pub fn extension_of(sorts: &[u64], kind: Kind, low: u64) -> Result<Literal, Refusal>
    ensures { ExtensionOf sorts.now kind low result }
{
    let pair = Pair { low, high: 0 };
    let need = signed_length(pair.signed_low()) + 2;
    value_of(sorts, wanted_of(kind), need, false)
}

// The member of a row; most is how many name bytes there are.
fn member_of(members: &[u64], most: usize, row: usize) -> Result<Literal, Refusal>
    ensures { MemberOf members.now most row result }
{
    let entity = word(members, row, 2) as usize;
    let range = clamp(word(members, row, 3), word(members, row, 4), most);
    let need = text_need(entity, range.end - range.start);
    Ok(Literal {
        row: entity,
        need,
        is_set: false,
    })
}

// `true`, `false`, or an enum member.
fn word_lit(sorts: &[u64], members: &[u64], names: &[u8], name: &[u8]) -> Result<Literal, Refusal>
    ensures { WordOf sorts.now members.now names.now name.now result }
{
    if same(name, b"true") {
        return value_of(sorts, Wanted::Bool, 4, false);
    }
    if same(name, b"false") {
        return value_of(sorts, Wanted::Bool, 5, false);
    }
    let found = find_member(members, names, name);
    match found {
        Some(row) => member_of(members, names.len(), row),
        None => Err(Refusal::UnknownLiteral),
    }
}

// The same of a symbol's text.
pub fn word_of(
    sorts: &[u64],
    members: &[u64],
    names: &[u8],
    text: &[u8],
    offset: u64,
    size: u64,
) -> Result<Literal, Refusal>
    ensures { WordOf sorts.now members.now names.now (text_at text.now offset size) result }
{
    let range = clamp(offset, size, text.len());
    let start = range.start;
    let end = range.end;
    word_lit(sorts, members, names, &text[start..end])
}
