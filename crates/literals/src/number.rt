// (_ bvN W): N is read first, then W is looked at, then whether it holds N.
ghost use Rattle.std.specs.Prelude.{◌+◌, ◌*◌, ◌^◌};
ghost use Rattle.words.specs.Pair.{value};
ghost use Rattle.arena.specs.Text.{text_at};
ghost use Rattle.literals.specs.Parts.{WidthOf, IndexedOf};

use crate::answer::Literal;
use crate::leaf::bits_of;
use forms::parse_number;
use refusals::Refusal;
use tables::clamp;
use words::Pair;

// The first width that cannot be written, and the first that holds every number of 128 bits.
const WIDE: u64 = 4294967296;

const WHOLE: u64 = 128;

// A number at a width of two words.
fn at_width(sorts: &[u64], number: Pair, low: u64, high: u64) -> Result<Literal, Refusal>
    ensures { WidthOf sorts.now (value number) (low + high * 2 ^ 64) result }
{
    if high != 0 {
        return Err(Refusal::IntegerOverflow);
    }
    if WIDE <= low {
        return Err(Refusal::IntegerOverflow);
    }
    if low == 0 {
        return Err(Refusal::ZeroWidthBitVec);
    }
    if low < WHOLE {
        if number.reaches(low) {
            return Err(Refusal::IntegerOverflow);
        }
    }
    bits_of(sorts, low)
}

pub fn indexed_of(
    sorts: &[u64],
    text: &[u8],
    offset: u64,
    size: u64,
    low: u64,
    high: u64,
) -> Result<Literal, Refusal>
    ensures { IndexedOf sorts.now (text_at text.now offset size) (low + high * 2 ^ 64) result }
{
    let range = clamp(offset, size, text.len());
    let start = range.start;
    let end = range.end;
    let number = parse_number(&text[start..end])?;
    at_width(sorts, number, low, high)
}
