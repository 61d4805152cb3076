// What all calls share: a refusal as one word, and numbers told at the front of a lent slice.
ghost use Rattle.std.specs.Prelude.{◌≡◌, ◌≤◌, length};
ghost use Rattle.told.specs.Code.{code_of};
ghost use Rattle.told.specs.Tells.{Tells, yields};
ghost use Rattle.told.specs.Yields.{written};

use refusals::Refusal;

const BYTE: u64 = 256;

const DETAILS: u64 = 1 << 56;

// The number in the low byte, the detail in the seven above it.
pub fn code(why: Refusal) -> u64
    ensures { result ≡ code_of why }
{
    let number = why.number();
    let detail = why.detail() as u64;
    number + BYTE * (detail % DETAILS)
}

// Numbers at the front of a slice that has room for them; answers the word of an acceptance.
pub fn tell(numbers: &[u64], told: &mut [u64]) -> u64
    requires { length numbers.now ≤ length told.old }
    ensures { Tells (yields numbers.now) told.old result told.new }
{
    told[..numbers.len()].copy_from_slice(numbers);
    0
}

// The length that was written, or why not.
pub fn tell_written(answer: Result<usize, Refusal>, told: &mut [u64]) -> u64
    requires { 1 ≤ length told.old }
    ensures { Tells (written answer) told.old result told.new }
{
    match answer {
        Ok(size) => tell(&[size as u64], told),
        Err(why) => code(why),
    }
}
