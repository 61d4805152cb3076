// The listing of a model and of a reply to get-value, exported.
// Stays: one function for each name that C calls; two that differ in a name alone are two exports.
ghost use Rattle.commands.specs.declared.form.Form.{Form};
ghost use Rattle.stazzumpi.specs.Outs.{ListsOut};

use refusals::Refusal;
use told::{code, tell_written};

// Tells how long the listing is.
#[unsafe(no_mangle)]
pub extern "C" fn stazzumpi_list_model(
    sorts: &[u64],
    fields: &[u64],
    variables: &[u64],
    functions: &[u64],
    members: &[u64],
    names: &[u8],
    nodes: &[u64],
    text: &[u8],
    out: &mut [u8],
    told: &mut [u64],
) -> u64
    ensures { ListsOut Form.Model (record { sorts = sorts.now; fields = fields.now; variables = variables.now; functions = functions.now; members = members.now; names = names.now }) nodes.now text.now out.old told.old result told.new out.new }
{
    if told.len() < 1 {
        return code(Refusal::OutRoom(1));
    }
    let answer = listing::list_model(
        sorts, fields, variables, functions, members, names, nodes, text, out,
    );
    tell_written(answer, told)
}

// The same of a reply to get-value.
#[unsafe(no_mangle)]
pub extern "C" fn stazzumpi_list_values(
    sorts: &[u64],
    fields: &[u64],
    variables: &[u64],
    functions: &[u64],
    members: &[u64],
    names: &[u8],
    nodes: &[u64],
    text: &[u8],
    out: &mut [u8],
    told: &mut [u64],
) -> u64
    ensures { ListsOut Form.Values (record { sorts = sorts.now; fields = fields.now; variables = variables.now; functions = functions.now; members = members.now; names = names.now }) nodes.now text.now out.old told.old result told.new out.new }
{
    if told.len() < 1 {
        return code(Refusal::OutRoom(1));
    }
    let answer = listing::list_values(
        sorts, fields, variables, functions, members, names, nodes, text, out,
    );
    tell_written(answer, told)
}
