// Each line in rooms of several sizes, which have to agree.
use crate::forms::{Parts, write};
use crate::shows;
use refusals::Refusal;

// A room that is large enough, and one for the sizes that follow from it; all that is lent is marked first.
pub fn answer(parts: Parts<'_>, line: &mut [u8]) {
    let mut large = io::buffer();
    let mut small = io::buffer();
    replay::mark_bytes(&mut large);
    match write(parts, &mut large) {
        Ok(need) => {
            let right = in_others(parts, need, &large, &mut small);
            shows::written(right, need, &large, line);
        }
        Err(why) => {
            let right = in_none(parts, why, &large, &mut small);
            shows::refusal(right, why, line);
        }
    }
}

// Behind the line nothing has changed; in just enough it is the same line; in a byte less, and in none, a refusal says how much is enough.
fn in_others(parts: Parts<'_>, need: usize, large: &[u8], small: &mut [u8]) -> bool {
    let short = Refusal::OutRoom(need);
    0 < need
        && need <= large.len()
        && replay::is_marked(&large[need..])
        && in_just_enough(parts, &large[..need], small)
        && in_too_little(parts, need - 1, short, small)
        && in_too_little(parts, 0, short, small)
}

// What is refused in plenty of room changes nothing there, and is refused in none.
fn in_none(parts: Parts<'_>, why: Refusal, large: &[u8], small: &mut [u8]) -> bool {
    replay::is_marked(large) && in_too_little(parts, 0, why, small)
}

fn in_just_enough(parts: Parts<'_>, found: &[u8], small: &mut [u8]) -> bool {
    let need = found.len();
    if small.len() < need {
        return false;
    }
    replay::mark_bytes(small);
    let Ok(count) = write(parts, &mut small[..need]) else {
        return false;
    };
    count == need && replay::is_marked(&small[need..]) && found == &small[..need]
}

fn in_too_little(parts: Parts<'_>, room: usize, expected: Refusal, small: &mut [u8]) -> bool {
    if small.len() < room {
        return false;
    }
    replay::mark_bytes(small);
    let Err(why) = write(parts, &mut small[..room]) else {
        return false;
    };
    why.number() == expected.number()
        && why.detail() == expected.detail()
        && replay::is_marked(small)
}
