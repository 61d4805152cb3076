// Lists of parts, written at a place.
ghost use Rattle.std.specs.Prelude.{◌≡◌, true, ◌++◌};
ghost use Rattle.ground.specs.Bytes.{bytes};
ghost use Rattle.ground.specs.Lists.{joined};
ghost use Rattle.lent.specs.Put.{Offers};
ghost use Rattle.parts.specs.Parts.{parts, paired, ends_right};
ghost use Rattle.parts.specs.Texts.{pair};

use lent::put;

// All parts, the separator between two.
pub fn put_joined(separator: &[u8], string: &[u8], ends: &[u64], out: &mut [u8], at: usize) -> usize
    requires { ends_right string.now ends.now ≡ true }
    ensures { Offers out.old out.new at (joined separator.now (parts string.now ends.now)) result }
{
    let mut from = 0;
    let mut to = at;
    for (i, end) in ends.iter().enumerate() {
        let end = *end as usize;
        if i != 0 {
            to = put(separator, out, to);
        }
        to = put(&string[from..end], out, to);
        from = end;
    }
    to
}

// What leads to it, its bracket too, then a name and a sort with the bracket that closes them.
fn put_pair(lead: &[u8], name: &[u8], sort: &[u8], out: &mut [u8], at: usize) -> usize
    ensures { Offers out.old out.new at (lead.now ++ (name.now ++ (bytes " " ++ (sort.now ++ bytes ")")))) result }
{
    let one = put(lead, out, at);
    let two = put(name, out, one);
    let three = put(b" ", out, two);
    let four = put(sort, out, three);
    put(b")", out, four)
}

// All pairs, a space between two; an end that is left over is of no pair.
// Stays: the loop of put_joined with two ends a turn, but a function for both would take the turn as a closure, with clauses on what it writes.
pub fn put_pairs(string: &[u8], ends: &[u64], out: &mut [u8], at: usize) -> usize
    requires { ends_right string.now ends.now ≡ true }
    ensures { Offers out.old out.new at (joined (bytes " ") (paired pair (parts string.now ends.now))) result }
{
    let mut lead: &[u8] = b"(";
    let mut from = 0;
    let mut to = at;
    let mut rest = ends;
    while let [middle, end, others @ ..] = rest {
        let middle = *middle as usize;
        let end = *end as usize;
        to = put_pair(lead, &string[from..middle], &string[middle..end], out, to);
        from = end;
        lead = b" (";
        rest = others;
    }
    to
}
