// (_ bvN W)
ghost use Rattle.std.specs.Prelude.{◌≡◌};
ghost use Rattle.words.specs.declared.digits.Radix.{Radix};
ghost use Rattle.words.specs.Run.{parsed};
ghost use Rattle.arena.specs.Text.{text_at};
ghost use Rattle.means.specs.Literal.{unsigned};
ghost use Rattle.forms.specs.Leaf.{IndexedForm};

use crate::form::Form;
use refusals::Refusal;
use tables::clamp;
use words::{Pair, Radix, parse};

// The sign that one number may begin with.
const PLUS: u8 = 43;

pub fn parse_number(digits: &[u8]) -> Result<Pair, Refusal>
    ensures { result ≡ parsed Radix.Decimal (unsigned digits.now) }
{
    if digits.len() == 0 {
        return parse(digits, Radix::Decimal);
    }
    if digits[0] == PLUS {
        return parse(&digits[1..], Radix::Decimal);
    }
    parse(digits, Radix::Decimal)
}

pub fn indexed_form(text: &[u8], offset: u64, size: u64, width: u64) -> Form
    ensures { IndexedForm (text_at text.now offset size) width result }
{
    let range = clamp(offset, size, text.len());
    let start = range.start;
    let end = range.end;
    let parsed = parse_number(&text[start..end]);
    match parsed {
        Ok(number) => Form::Bits {
            width,
            low: number.low,
            high: number.high,
        },
        Err(_) => Form::NoForm,
    }
}
