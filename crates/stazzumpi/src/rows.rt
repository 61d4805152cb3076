// The check of 25 and the reading of the tables' text, exported.
ghost use Rattle.std.specs.Prelude.{◌≡◌};
ghost use Rattle.tables.specs.Check.{checked};
ghost use Rattle.told.specs.Tells.{word_of};
ghost use Rattle.told.specs.Yields.{passed};
ghost use Rattle.stazzumpi.specs.Outs.{ReadsOut};

use refusals::Refusal;
use told::{code, tell_tables};

// Tells nothing but that the tables break no rule.
#[unsafe(no_mangle)]
pub extern "C" fn stazzumpi_check_tables(
    sorts: &[u64],
    fields: &[u64],
    variables: &[u64],
    functions: &[u64],
    members: &[u64],
    names: &[u8],
) -> u64
    ensures { result ≡ word_of (passed (checked (record { sorts = sorts.now; fields = fields.now; variables = variables.now; functions = functions.now; members = members.now; names = names.now }))) }
{
    let answer = tables::check_tables(sorts, fields, variables, functions, members, names);
    match answer {
        Ok(()) => 0,
        Err(why) => code(why),
    }
}

// Tells how many words of each buffer the tables took.
#[unsafe(no_mangle)]
pub extern "C" fn stazzumpi_read_tables(
    text: &[u8],
    sorts: &mut [u64],
    fields: &mut [u64],
    variables: &mut [u64],
    functions: &mut [u64],
    members: &mut [u64],
    told: &mut [u64],
) -> u64
    ensures { ReadsOut text.now (record { sorts = sorts.old; fields = fields.old; variables = variables.old; functions = functions.old; members = members.old }) told.old result told.new (record { sorts = sorts.new; fields = fields.new; variables = variables.new; functions = functions.new; members = members.new }) }
{
    if told.len() < 5 {
        return code(Refusal::OutRoom(5));
    }
    let answer = tables_text::read_tables(text, sorts, fields, variables, functions, members);
    tell_tables(answer, told)
}
