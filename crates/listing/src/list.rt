// The public calls: the tables are checked, then the arena, then the parts of the reply are walked, and then the room is looked at.
ghost use Rattle.commands.specs.declared.form.Form.{Form as Forms};
ghost use Rattle.listing.specs.Lists.{Lists};
ghost use Rattle.listing.specs.Stages.{Zeroed, Finishes, Parted, Replied, Stored};

use crate::entry::write_entries;
use crate::header::{header_need, write_header};
use crate::tally::tally_entries;
use arena_check::check_arena;
use commands::Form;
use literals::plus;
use moves::clear;
use refusals::Refusal;
use shapes::list_at;
use tables::check_tables;
use walk::{WORDS, walk_parts};

// Zeros from a place up to another one.
fn clear_between(out: &mut [u8], start: usize, end: usize)
    ensures { Zeroed out.old start end out.new }
{
    if end < start {
        return;
    }
    if out.len() < end {
        return;
    }
    clear(&mut out[start..end]);
}

// What the walk noted, written where there is room for it with repeats kept; zeros behind what was written, up to that need.
fn list_noted(
    sorts: &[u64],
    variables: &[u64],
    functions: &[u64],
    members: &[u64],
    names: &[u8],
    nodes: &[u64],
    text: &[u8],
    last: &[usize],
    scratch: &mut [u8],
    out: &mut [u8],
) -> Result<usize, Refusal>
    ensures { Finishes sorts.now variables.now functions.now members.now names.now nodes.now text.now last.now out.old result out.new }
{
    let tally = tally_entries(variables, functions, names, last);
    let head = header_need(tally.variables, tally.functions);
    let need = plus(head, tally.need);
    if out.len() < need {
        return Err(Refusal::OutRoom(need));
    }
    let start = write_header(tally.variables, tally.functions, out);
    let end = write_entries(
        sorts, variables, functions, members, names, nodes, text, last, scratch, out, start,
    );
    clear_between(out, end, need);
    Ok(end)
}

// So many parts from node 1 on.
fn list_parts(
    form: Form,
    sorts: &[u64],
    fields: &[u64],
    variables: &[u64],
    functions: &[u64],
    members: &[u64],
    names: &[u8],
    nodes: &[u64],
    text: &[u8],
    count: u64,
    last: &mut [usize],
    scratch: &mut [u8],
    out: &mut [u8],
) -> Result<usize, Refusal>
    ensures { Parted form (record { sorts = sorts.now; fields = fields.now; variables = variables.now; functions = functions.now; members = members.now; names = names.now }) nodes.now text.now count last.old out.old result out.new }
{
    walk_parts(
        form, sorts, fields, variables, functions, members, names, nodes, text, 1, count, last,
    )?;
    list_noted(
        sorts, variables, functions, members, names, nodes, text, last, scratch, out,
    )
}

// A reply whose tables and arena passed; 13 where its root is no list.
fn list_checked(
    form: Form,
    sorts: &[u64],
    fields: &[u64],
    variables: &[u64],
    functions: &[u64],
    members: &[u64],
    names: &[u8],
    nodes: &[u64],
    text: &[u8],
    last: &mut [usize],
    scratch: &mut [u8],
    out: &mut [u8],
) -> Result<usize, Refusal>
    ensures { Replied form (record { sorts = sorts.now; fields = fields.now; variables = variables.now; functions = functions.now; members = members.now; names = names.now }) nodes.now text.now last.old out.old result out.new }
{
    let list = list_at(nodes, 0);
    let Some(count) = list else {
        return Err(Refusal::UnexpectedModel);
    };
    list_parts(
        form, sorts, fields, variables, functions, members, names, nodes, text, count, last,
        scratch, out,
    )
}

// A reply whose tables passed; 27 where the words and the text are no tree's.
fn list_stored(
    form: Form,
    sorts: &[u64],
    fields: &[u64],
    variables: &[u64],
    functions: &[u64],
    members: &[u64],
    names: &[u8],
    nodes: &[u64],
    text: &[u8],
    last: &mut [usize],
    scratch: &mut [u8],
    out: &mut [u8],
) -> Result<usize, Refusal>
    ensures { Stored form (record { sorts = sorts.now; fields = fields.now; variables = variables.now; functions = functions.now; members = members.now; names = names.now }) nodes.now text.now last.old out.old result out.new }
{
    check_arena(nodes, text)?;
    list_checked(
        form, sorts, fields, variables, functions, members, names, nodes, text, last, scratch, out,
    )
}

// The last definitions of the tables' names in a reply of the form, in table order.
pub fn list_form(
    form: Form,
    sorts: &[u64],
    fields: &[u64],
    variables: &[u64],
    functions: &[u64],
    members: &[u64],
    names: &[u8],
    nodes: &[u64],
    text: &[u8],
    out: &mut [u8],
) -> Result<usize, Refusal>
    ensures { Lists form (record { sorts = sorts.now; fields = fields.now; variables = variables.now; functions = functions.now; members = members.now; names = names.now }) nodes.now text.now out.old result out.new }
{
    let mut last: [usize; WORDS] = [0; WORDS];
    let mut scratch: [u8; 65536] = [0; 65536];
    check_tables(sorts, fields, variables, functions, members, names)?;
    list_stored(
        form,
        sorts,
        fields,
        variables,
        functions,
        members,
        names,
        nodes,
        text,
        &mut last,
        &mut scratch,
        out,
    )
}

// Of a model.
// Stays: `list_model` and `list_values` are `list_form` at one form each, by the names that docs/CONTRACTS.md gives and C has.
pub fn list_model(
    sorts: &[u64],
    fields: &[u64],
    variables: &[u64],
    functions: &[u64],
    members: &[u64],
    names: &[u8],
    nodes: &[u64],
    text: &[u8],
    out: &mut [u8],
) -> Result<usize, Refusal>
    ensures { Lists Forms.Model (record { sorts = sorts.now; fields = fields.now; variables = variables.now; functions = functions.now; members = members.now; names = names.now }) nodes.now text.now out.old result out.new }
{
    list_form(
        Form::Model,
        sorts,
        fields,
        variables,
        functions,
        members,
        names,
        nodes,
        text,
        out,
    )
}

// Of a reply to get-value: as a model without functions.
pub fn list_values(
    sorts: &[u64],
    fields: &[u64],
    variables: &[u64],
    functions: &[u64],
    members: &[u64],
    names: &[u8],
    nodes: &[u64],
    text: &[u8],
    out: &mut [u8],
) -> Result<usize, Refusal>
    ensures { Lists Forms.Values (record { sorts = sorts.now; fields = fields.now; variables = variables.now; functions = functions.now; members = members.now; names = names.now }) nodes.now text.now out.old result out.new }
{
    list_form(
        Form::Values,
        sorts,
        fields,
        variables,
        functions,
        members,
        names,
        nodes,
        text,
        out,
    )
}
