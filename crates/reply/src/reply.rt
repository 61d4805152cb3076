// A tables' text and a reply in lent rooms. The order of refusals: 9, then the tables', the reader's, the walk's.
ghost use Rattle.std.specs.Prelude.{◌≡◌, length};
ghost use Rattle.reply.specs.Reply.{Replies};
ghost use Rattle.reply.specs.Read.{ReadsOn};

use commands::Form;
use listing::list_form;
use reader::parse_sexpr;
use refusals::Refusal;
use tables_text::read_tables;

// Of each of the two inputs.
const LIMIT: usize = 65536;

// Room for 1,024 rows.
fn row_words() -> [u64; 5120]
    ensures { 5120 ≡ length result }
{
    [0; 5120]
}

// Room for the fields of any text of 65,536 bytes: each takes at least two.
fn field_words() -> [u64; 32768]
    ensures { 32768 ≡ length result }
{
    [0; 32768]
}

// The reply read and walked, over tables that stand in their words.
fn list_text(
    form: Form,
    sorts: &[u64],
    fields: &[u64],
    variables: &[u64],
    functions: &[u64],
    members: &[u64],
    names: &[u8],
    reply: &[u8],
    nodes: &mut [u64],
    text: &mut [u8],
    stack: &mut [u64],
    out: &mut [u8],
) -> Result<usize, Refusal>
    ensures { ReadsOn form (record { sorts = sorts.now; fields = fields.now; variables = variables.now; functions = functions.now; members = members.now; names = names.now }) reply.now (record { nodes = nodes.old; text = text.old; stack = stack.old }) out.old result (record { nodes = nodes.new; text = text.new; stack = stack.new }) out.new }
{
    let _ = parse_sexpr(reply, nodes, text, stack)?;
    list_form(
        form, sorts, fields, variables, functions, members, names, nodes, text, out,
    )
}

// The listing of a reply over the tables that a text spells, the tree in the rooms that are lent for it.
pub fn list_in(
    form: Form,
    tables: &[u8],
    reply: &[u8],
    nodes: &mut [u64],
    text: &mut [u8],
    stack: &mut [u64],
    out: &mut [u8],
) -> Result<usize, Refusal>
    ensures { Replies form tables.now reply.now (record { nodes = nodes.old; text = text.old; stack = stack.old }) out.old result (record { nodes = nodes.new; text = text.new; stack = stack.new }) out.new }
{
    if LIMIT < tables.len() {
        return Err(Refusal::InputTooLong);
    }
    let long = reply.len();
    if LIMIT < long {
        return Err(Refusal::InputTooLong);
    }
    let mut sorts = row_words();
    let mut fields = field_words();
    let mut variables = row_words();
    let mut functions = row_words();
    let mut members = row_words();
    let rows = read_tables(
        tables,
        &mut sorts,
        &mut fields,
        &mut variables,
        &mut functions,
        &mut members,
    )?;
    list_text(
        form,
        &sorts[..rows.sorts],
        &fields[..rows.fields],
        &variables[..rows.variables],
        &functions[..rows.functions],
        &members[..rows.members],
        tables,
        reply,
        nodes,
        text,
        stack,
        out,
    )
}
