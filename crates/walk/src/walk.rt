// The parts of a reply in order, the commands of a model or the pairs of get-value: each is checked, and the last definition of each name is kept.
ghost use Rattle.walk.specs.Noted.{NotesAt};
ghost use Rattle.walk.specs.Walked.{Walks};

use crate::command::{Noted, check_command};
use crate::last::keep;
use crate::pair::check_pair;
use arena::after;
use commands::Form;
use refusals::Refusal;

// The part at a node, by the reply's form.
fn check_part(
    form: Form,
    sorts: &[u64],
    fields: &[u64],
    variables: &[u64],
    functions: &[u64],
    members: &[u64],
    names: &[u8],
    nodes: &[u64],
    text: &[u8],
    at: usize,
) -> Result<Option<Noted>, Refusal>
    ensures { NotesAt form (record { sorts = sorts.now; fields = fields.now; variables = variables.now; functions = functions.now; members = members.now; names = names.now }) nodes.now text.now at result }
{
    match form {
        Form::Model => check_command(
            sorts, fields, variables, functions, members, names, nodes, text, at,
        ),
        Form::Values => check_pair(
            sorts, fields, variables, functions, members, names, nodes, text, at,
        ),
    }
}

// So many parts from a node on.
pub fn walk_parts(
    form: Form,
    sorts: &[u64],
    fields: &[u64],
    variables: &[u64],
    functions: &[u64],
    members: &[u64],
    names: &[u8],
    nodes: &[u64],
    text: &[u8],
    first: usize,
    count: u64,
    last: &mut [usize],
) -> Result<(), Refusal>
    ensures { Walks form (record { sorts = sorts.now; fields = fields.now; variables = variables.now; functions = functions.now; members = members.now; names = names.now }) nodes.now text.now first count last.old last.new result }
{
    let mut at = first;
    for _ in 0..count {
        let noted = check_part(
            form, sorts, fields, variables, functions, members, names, nodes, text, at,
        )?;
        if let Some(Noted { slot, value, need }) = noted {
            keep(last, slot, at, value, need);
        }
        at = after(nodes, at);
    }
    Ok(())
}
