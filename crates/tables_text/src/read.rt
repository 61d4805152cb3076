// The public call: refused before anything is written, or the tables' words.
ghost use Rattle.std.specs.Prelude.{◌≡◌, length};
ghost use Rattle.tables_text.specs.Read.{Reads};

use crate::parse::{Counts, parse_rows};
use crate::store::{answer_for, store};
use refusals::Refusal;

const TEXT_LIMIT: usize = 65536;

// Room for 1,024 rows.
fn row_words() -> [u64; 5120]
    ensures { 5120 ≡ length result }
{
    [0; 5120]
}

// Room for the fields of any text: each takes at least two bytes of it.
fn field_words() -> [u64; 32768]
    ensures { 32768 ≡ length result }
{
    [0; 32768]
}

// Reads the tables' text into the fronts of what was lent: names are places in the text itself.
pub fn read_tables(
    text: &[u8],
    sorts: &mut [u64],
    fields: &mut [u64],
    variables: &mut [u64],
    functions: &mut [u64],
    members: &mut [u64],
) -> Result<Counts, Refusal>
    ensures { Reads text.now (record { sorts = sorts.old; fields = fields.old; variables = variables.old; functions = functions.old; members = members.old }) result (record { sorts = sorts.new; fields = fields.new; variables = variables.new; functions = functions.new; members = members.new }) }
{
    if TEXT_LIMIT < text.len() {
        return Err(Refusal::InputTooLong);
    }
    let mut a = row_words();
    let mut b = field_words();
    let mut c = row_words();
    let mut d = row_words();
    let mut e = row_words();
    let parsed = parse_rows(text, &mut a, &mut b, &mut c, &mut d, &mut e);
    let answer = answer_for(
        parsed,
        sorts.len(),
        fields.len(),
        variables.len(),
        functions.len(),
        members.len(),
    );
    store(
        answer, &a, &b, &c, &d, &e, sorts, fields, variables, functions, members,
    )
}
