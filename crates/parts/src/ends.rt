// What is asked of lent inputs before a line is written.
ghost use Rattle.std.specs.Prelude.{◌≡◌, ◌||◌, ◌+◌, ◌-◌, ◌*◌, ◌≤◌, ltb};
ghost use Rattle.parts.specs.Parts.{risen, pairs_risen};
ghost use Rattle.refusals.specs.Limit.{input_limit};

use refusals::INPUT_LIMIT;

// Whether an input of this size is too long, or another one is.
pub fn exceeds(size: usize, others: bool) -> bool
    ensures { result ≡ (ltb input_limit size || others) }
{
    INPUT_LIMIT < size || others
}

pub fn check_ends(size: usize, ends: &[u64]) -> Option<usize>
    ensures { result ≡ risen size ends.now }
{
    let mut last: usize = 0;
    for end in ends {
        let end = *end as usize;
        if end < last || size < end {
            return None;
        }
        last = end;
    }
    Some(last)
}

// The same of pairs, two ends each.
pub fn check_pairs(size: usize, ends: &[u64]) -> Option<usize>
    ensures { result ≡ pairs_risen size ends.now }
{
    if ends.len() % 2 == 1 {
        return None;
    }
    check_ends(size, ends)
}

// How long parts are with a separator of this size between two, by the last one's end and their count.
pub fn joined_length(last: usize, count: usize, gap: usize) -> usize
    requires { (last ≤ input_limit) × (count ≤ input_limit) × (gap ≤ 3) }
    ensures { result ≡ last + (count - 1) * gap }
{
    last + count.saturating_sub(1) * gap
}

// How long pairs are in brackets with a space between two.
pub fn pairs_length(last: usize, count: usize) -> usize
    requires { (last ≤ input_limit) × (count ≤ input_limit) }
    ensures { result ≡ last + count * 4 - 1 }
{
    (last + count * 4).saturating_sub(1)
}
