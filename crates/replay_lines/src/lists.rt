// The fields of a case: texts, lists, and tables of ends.
ghost use Rattle.std.specs.Prelude.{◌≤◌, length};

// The bytes of the field at a place; the commas of a list are passed over.
pub fn letters(case: &[u8], start: usize, out: &mut [u8]) -> usize
    ensures { result ≤ length out.old }
{
    let end = replay::field_end(case, start, b' ');
    let Some(field) = case.get(start..end) else {
        return 0;
    };
    let mut count: usize = 0;
    for part in field.split(|byte| *byte == b',') {
        count += replay::unhex(part, &mut out[count..]);
    }
    count
}

// Where the texts of a list end, each of which has a comma behind it.
pub fn comma_ends(case: &[u8], start: usize, ends: &mut [u64]) -> usize
    ensures { result ≤ length ends.old }
{
    let end = replay::field_end(case, start, b' ');
    let mut total: usize = 0;
    let mut count: usize = 0;
    let mut at = start;
    while at < end {
        if ends.len() <= count {
            return count;
        }
        let stop = replay::field_end(case, at, b',');
        total += (stop - at) / 2;
        ends[count] = total as u64;
        count += 1;
        at = stop + 1;
    }
    count
}

// The numbers of a field, each of which has a dot behind it.
pub fn dotted_ends(case: &[u8], start: usize, ends: &mut [u64]) -> usize
    ensures { result ≤ length ends.old }
{
    let end = replay::field_end(case, start, b' ');
    let mut count: usize = 0;
    let mut at = start;
    while at < end {
        if ends.len() <= count {
            return count;
        }
        let stop = replay::field_end(case, at, b'.');
        ends[count] = replay::number(&case[at..stop]).low;
        count += 1;
        at = stop + 1;
    }
    count
}
