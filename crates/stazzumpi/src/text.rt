// decode_string, exported.
// Stays: one function for each name that C calls; two that differ in a name alone are two exports.
ghost use Rattle.strings.specs.Text.{decoded};
ghost use Rattle.stazzumpi.specs.Outs.{WritesOut};

use refusals::Refusal;
use told::{code, tell_written};

// Tells the length of the text.
#[unsafe(no_mangle)]
pub extern "C" fn stazzumpi_decode_string(s: &[u8], out: &mut [u8], told: &mut [u64]) -> u64
    ensures { WritesOut (decoded s.now out.old) told.old out.old result told.new out.new }
{
    if told.len() < 1 {
        return code(Refusal::OutRoom(1));
    }
    let answer = strings::decode_string(s, out);
    tell_written(answer, told)
}
