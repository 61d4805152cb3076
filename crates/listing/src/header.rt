// The first two lines: how many variables and how many functions are defined.
ghost use Rattle.std.specs.Prelude.{◌≡◌, length};
ghost use Rattle.lent.specs.Put.{Offers};
ghost use Rattle.listing.specs.Line.{header};

use crate::line::write_number_line;
use decimals::digit_count;

// `vars=`, `funs=` and two line ends.
const HEADER: usize = 12;

pub fn header_need(variables: usize, functions: usize) -> usize
    ensures { result ≡ length (header variables functions) }
{
    digit_count(variables as u64) + digit_count(functions as u64) + HEADER
}

pub fn write_header(variables: usize, functions: usize, out: &mut [u8]) -> usize
    ensures { Offers out.old out.new 0 (header variables functions) result }
{
    let one = write_number_line(b"vars=", variables as u64, out, 0);
    write_number_line(b"funs=", functions as u64, out, one)
}
