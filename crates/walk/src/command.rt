// One command: its shape first, then its name in the table of its form, then its definition.
ghost use Rattle.std.specs.Prelude.{◌≡◌};
ghost use Rattle.arena.specs.Text.{text_at};
ghost use Rattle.tables.specs.Lookup.{FindsVariable};
ghost use Rattle.commands.specs.declared.form.Form.{Form};
ghost use Rattle.walk.specs.Noted.{noted_as, NotesVariable, NotesFunction, NotesAt};

use commands::{CommandFound, command_at};
use definitions::{check_function, check_variable};
use refusals::Refusal;
use tables::{clamp, count, find_function, find_variable, word};

#[derive(Clone, Copy)]
pub struct Noted {
    pub slot: usize,
    pub value: usize,
    pub need: usize,
}

pub fn noted_as(
    measured: Result<usize, Refusal>,
    slot: usize,
    value: usize,
) -> Result<Option<Noted>, Refusal>
    ensures { result ≡ noted_as measured slot value }
{
    let need = measured?;
    Ok(Some(Noted { slot, value, need }))
}

// The row of the variable that a text names.
pub fn variable_row(
    variables: &[u64],
    names: &[u8],
    text: &[u8],
    offset: u64,
    size: u64,
) -> Option<usize>
    ensures { FindsVariable variables.now names.now (text_at text.now offset size) result }
{
    let range = clamp(offset, size, text.len());
    find_variable(variables, names, &text[range.start..range.end])
}

// A name that is not in the variable table is skipped unread.
fn note_variable(
    sorts: &[u64],
    fields: &[u64],
    variables: &[u64],
    functions: &[u64],
    members: &[u64],
    names: &[u8],
    nodes: &[u64],
    text: &[u8],
    offset: u64,
    size: u64,
    sort: usize,
    value: usize,
) -> Result<Option<Noted>, Refusal>
    ensures { NotesVariable (record { sorts = sorts.now; fields = fields.now; variables = variables.now; functions = functions.now; members = members.now; names = names.now }) nodes.now text.now offset size sort value result }
{
    let Some(row) = variable_row(variables, names, text, offset, size) else {
        return Ok(None);
    };
    let declared = word(variables, row, 2) as usize;
    let measured = check_variable(
        sorts, fields, members, names, nodes, text, declared, sort, value,
    );
    noted_as(measured, row, value)
}

// A name that is not in the function table is skipped unread.
fn note_function(
    sorts: &[u64],
    fields: &[u64],
    variables: &[u64],
    functions: &[u64],
    members: &[u64],
    names: &[u8],
    nodes: &[u64],
    text: &[u8],
    offset: u64,
    size: u64,
    arg_offset: u64,
    arg_length: u64,
    arg_sort: usize,
    sort: usize,
    body: usize,
) -> Result<Option<Noted>, Refusal>
    ensures { NotesFunction (record { sorts = sorts.now; fields = fields.now; variables = variables.now; functions = functions.now; members = members.now; names = names.now }) nodes.now text.now offset size arg_offset arg_length arg_sort sort body result }
{
    let range = clamp(offset, size, text.len());
    let Some(row) = find_function(functions, names, &text[range.start..range.end]) else {
        return Ok(None);
    };
    let argument = word(functions, row, 2) as usize;
    let result = word(functions, row, 3) as usize;
    let measured = check_function(
        sorts, fields, members, names, nodes, text, argument, result, arg_offset, arg_length,
        arg_sort, sort, body,
    );
    noted_as(measured, count(variables) + row, body)
}

// The command at a node; any other shape than the two forms is 13.
pub fn check_command(
    sorts: &[u64],
    fields: &[u64],
    variables: &[u64],
    functions: &[u64],
    members: &[u64],
    names: &[u8],
    nodes: &[u64],
    text: &[u8],
    at: usize,
) -> Result<Option<Noted>, Refusal>
    ensures { NotesAt Form.Model (record { sorts = sorts.now; fields = fields.now; variables = variables.now; functions = functions.now; members = members.now; names = names.now }) nodes.now text.now at result }
{
    let command = command_at(nodes, text, at)?;
    match command {
        CommandFound::Variable {
            size,
            offset,
            sort,
            value,
        } => note_variable(
            sorts, fields, variables, functions, members, names, nodes, text, offset, size, sort,
            value,
        ),
        CommandFound::Function {
            size,
            offset,
            arg_length,
            arg_offset,
            arg_sort,
            sort,
            body,
        } => note_function(
            sorts, fields, variables, functions, members, names, nodes, text, offset, size,
            arg_offset, arg_length, arg_sort, sort, body,
        ),
    }
}
