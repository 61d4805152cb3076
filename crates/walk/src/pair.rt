// One pair of a reply to get-value: its shape first, then its name in the variable table, then its value.
ghost use Rattle.commands.specs.declared.form.Form.{Form};
ghost use Rattle.walk.specs.Noted.{NotesPair, NotesAt};

use crate::command::{Noted, noted_as, variable_row};
use commands::pair_at;
use definitions::check_value;
use refusals::Refusal;
use tables::word;

// The value expects the sort that the table gives the name; a name that is not in the variable table is skipped unread.
fn note_pair(
    sorts: &[u64],
    fields: &[u64],
    variables: &[u64],
    functions: &[u64],
    members: &[u64],
    names: &[u8],
    nodes: &[u64],
    text: &[u8],
    offset: u64,
    size: u64,
    value: usize,
) -> Result<Option<Noted>, Refusal>
    ensures { NotesPair (record { sorts = sorts.now; fields = fields.now; variables = variables.now; functions = functions.now; members = members.now; names = names.now }) nodes.now text.now offset size value result }
{
    let Some(row) = variable_row(variables, names, text, offset, size) else {
        return Ok(None);
    };
    let declared = word(variables, row, 2) as usize;
    let measured = check_value(sorts, fields, members, names, nodes, text, declared, value);
    noted_as(measured, row, value)
}

// The pair at a node; any other shape is 13.
pub fn check_pair(
    sorts: &[u64],
    fields: &[u64],
    variables: &[u64],
    functions: &[u64],
    members: &[u64],
    names: &[u8],
    nodes: &[u64],
    text: &[u8],
    at: usize,
) -> Result<Option<Noted>, Refusal>
    ensures { NotesAt Form.Values (record { sorts = sorts.now; fields = fields.now; variables = variables.now; functions = functions.now; members = members.now; names = names.now }) nodes.now text.now at result }
{
    let pair = pair_at(nodes, at).ok_or(Refusal::UnexpectedModel)?;
    note_pair(
        sorts,
        fields,
        variables,
        functions,
        members,
        names,
        nodes,
        text,
        pair.offset,
        pair.size,
        pair.second,
    )
}
