// An answer, as a line on standard output; it is named wrong where another room brought another one.
ghost use Rattle.std.specs.Prelude.{length};
ghost use Rattle.replay.specs.Places.{Onward};

use refusals::Refusal;

fn put_verdict(right: bool, line: &mut [u8]) -> usize
    ensures { Onward (length line.old) 0 result }
{
    if right {
        0
    } else {
        replay::put(b"wrong=", line, 0)
    }
}

// The line that stands at the front of a buffer.
pub fn written(right: bool, count: usize, buffer: &[u8], line: &mut [u8]) {
    let Some(found) = buffer.get(..count) else {
        return;
    };
    let start = put_verdict(right, line);
    let named = replay::put(b"line=", line, start);
    let end = replay::put_hex(found, line, named);
    replay::finish(line, end);
}

pub fn refusal(right: bool, why: Refusal, line: &mut [u8]) {
    let start = put_verdict(right, line);
    let end = replay::put_detailed(why, line, start);
    replay::finish(line, end);
}
