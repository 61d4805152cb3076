// The decimal text of a number, written to the front of a lent buffer.
#![tactic(auto)]

ghost use Rattle.std.specs.Prelude.{◌≡◌, ◌∷◌, ◌++◌, ◌-◌, ◌≤◌, nat_abs, length, take, drop};
ghost use Rattle.refusals.specs.declared.Refusal.{Refusal};
ghost use Rattle.lent.specs.Left.{writing, Leaves};
ghost use Rattle.decimals.specs.Decimal.{last_digits, digit_count, decimal, signed_decimal};

use refusals::Refusal;

pub fn digit_count(number: u64) -> usize
    ensures { result ≡ digit_count number }
{
    match number.checked_ilog10() {
        Some(power) => power as usize + 1,
        None => 1,
    }
}

// The last digits of a number in the places from start up to end, the last one first.
fn put_digits(number: u64, out: &mut [u8], start: usize, end: usize)
    requires { (start ≤ end) × (end ≤ length out.old) }
    ensures { out.new ≡ take start out.old ++ (last_digits (end - start) number ++ drop end out.old) }
{
    let mut rest = number;
    for at in (start..end).rev() {
        out[at] = b'0' + (rest % 10) as u8;
        rest /= 10;
    }
}

pub fn write_natural(number: u64, out: &mut [u8]) -> Result<usize, Refusal>
    ensures { Leaves (writing Refusal.OutRoom (decimal number) out.old) result out.new }
{
    let need = digit_count(number);
    if out.len() < need {
        return Err(Refusal::OutRoom(need));
    }
    put_digits(number, out, 0, need);
    Ok(need)
}

// How long the text of a signed number is.
pub fn signed_length(number: i64) -> usize
    ensures { result ≡ length (signed_decimal number) }
{
    let digits = digit_count(number.unsigned_abs());
    if number < 0 { digits + 1 } else { digits }
}

// A minus sign and a number.
// Stays: apart from `write_natural`, since one function for both would take the sign as a slice, and bound its length.
fn write_negative(size: u64, out: &mut [u8]) -> Result<usize, Refusal>
    ensures { Leaves (writing Refusal.OutRoom (45 ∷ decimal size) out.old) result out.new }
{
    let need = digit_count(size) + 1;
    if out.len() < need {
        return Err(Refusal::OutRoom(need));
    }
    out[0] = b'-';
    put_digits(size, out, 1, need);
    Ok(need)
}

pub fn write_signed(number: i64, out: &mut [u8]) -> Result<usize, Refusal>
    ensures { Leaves (writing Refusal.OutRoom (signed_decimal number) out.old) result out.new }
{
    let size = number.unsigned_abs();
    if number < 0 {
        write_negative(size, out)
    } else {
        write_natural(size, out)
    }
}
