// The words of all tables at the fronts of what was lent, if each has room.
ghost use Rattle.std.specs.Prelude.{◌≡◌, ◌≤◌, length, take};
ghost use Rattle.lent.specs.Left.{onto};
ghost use Rattle.tables_text.specs.Fronts.{answer_told, Storable, Stored};

use crate::parse::Counts;
use refusals::Refusal;

// The first words of a room, at the front of a buffer that has room for them.
fn copy_words(words: &[u64], count: usize, out: &mut [u64])
    requires { (count ≤ length words.now) × (count ≤ length out.old) }
    ensures { out.new ≡ onto (take count words.now) out.old }
{
    out[..count].copy_from_slice(&words[..count]);
}

// The answer, before anything is written: the rooms are looked at one after the other, by their lengths alone.
pub fn answer_for(
    parsed: Option<Counts>,
    sorts: usize,
    fields: usize,
    variables: usize,
    functions: usize,
    members: usize,
) -> Result<Counts, Refusal>
    ensures { result ≡ answer_told sorts fields variables functions members parsed }
{
    let Some(counts) = parsed else {
        return Err(Refusal::BadTable);
    };
    if sorts < counts.sorts {
        return Err(Refusal::OutRoom(counts.sorts));
    }
    if fields < counts.fields {
        return Err(Refusal::OutRoom(counts.fields));
    }
    if variables < counts.variables {
        return Err(Refusal::OutRoom(counts.variables));
    }
    if functions < counts.functions {
        return Err(Refusal::OutRoom(counts.functions));
    }
    if members < counts.members {
        return Err(Refusal::OutRoom(counts.members));
    }
    Ok(counts)
}

// What the answer says, done.
pub fn store(
    answer: Result<Counts, Refusal>,
    a: &[u64],
    b: &[u64],
    c: &[u64],
    d: &[u64],
    e: &[u64],
    sorts: &mut [u64],
    fields: &mut [u64],
    variables: &mut [u64],
    functions: &mut [u64],
    members: &mut [u64],
) -> Result<Counts, Refusal>
    requires { Storable answer (record { sorts = a.now; fields = b.now; variables = c.now; functions = d.now; members = e.now }) (record { sorts = sorts.old; fields = fields.old; variables = variables.old; functions = functions.old; members = members.old }) }
    ensures { Stored answer (record { sorts = a.now; fields = b.now; variables = c.now; functions = d.now; members = e.now }) (record { sorts = sorts.old; fields = fields.old; variables = variables.old; functions = functions.old; members = members.old }) result (record { sorts = sorts.new; fields = fields.new; variables = variables.new; functions = functions.new; members = members.new }) }
{
    let counts = answer?;
    copy_words(a, counts.sorts, sorts);
    copy_words(b, counts.fields, fields);
    copy_words(c, counts.variables, variables);
    copy_words(d, counts.functions, functions);
    copy_words(e, counts.members, members);
    Ok(counts)
}
