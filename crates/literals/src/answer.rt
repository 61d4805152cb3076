// What reading a literal answers, and how long its text is.
ghost use Rattle.std.specs.Prelude.{◌≡◌, ◌+◌, ◌*◌};
ghost use Rattle.decimals.specs.Decimal.{digit_count};
ghost use Rattle.literals.specs.Answer.{capped, ValueOf};

use decimals::digit_count;
use refusals::Refusal;
use sorts::row_of;
use tables::Wanted;

// The row of the sort, how long the text is with repeats kept, and whether it is a set.
#[derive(Clone, Copy)]
pub struct Literal {
    pub row: usize,
    pub need: usize,
    pub is_set: bool,
}

// The greatest length that is counted.
const MOST: usize = usize::MAX;

// Words that are no arena can stand for a text longer than any; its length is cut off there.
pub fn plus(a: usize, b: usize) -> usize
    ensures { result ≡ capped (a + b) }
{
    if MOST - a < b {
        return MOST;
    }
    a + b
}

// How long an entity's text is: `e`, its row, `:`, and two digits a byte.
pub fn text_need(row: usize, size: usize) -> usize
    ensures { result ≡ capped (digit_count row + 2 * size + 2) }
{
    let twice = plus(size, size);
    plus(twice, digit_count(row as u64) + 2)
}

// A value of a sort without a name.
pub fn value_of(
    sorts: &[u64],
    wanted: Wanted,
    need: usize,
    is_set: bool,
) -> Result<Literal, Refusal>
    ensures { ValueOf sorts.now wanted need is_set result }
{
    let row = row_of(sorts, wanted)?;
    Ok(Literal { row, need, is_set })
}
