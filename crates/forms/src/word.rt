// A symbol: `true`, `false`, or an enum member.
ghost use Rattle.arena.specs.Text.{text_at};
ghost use Rattle.forms.specs.Leaf.{MemberForm, WordForm};

use crate::form::Form;
use arena::same;
use tables::{clamp, find_member, word};

// The member of a row; a text that runs past the names is as long as they go.
fn member_form(members: &[u64], names: &[u8], row: usize) -> Form
    ensures { MemberForm members.now names.now row result }
{
    let entity = word(members, row, 2) as usize;
    let range = clamp(word(members, row, 3), word(members, row, 4), names.len());
    let start = range.start;
    let end = range.end;
    Form::Member {
        row: entity,
        offset: start as u64,
        size: (end - start) as u64,
    }
}

fn name_form(members: &[u64], names: &[u8], name: &[u8]) -> Form
    ensures { WordForm members.now names.now name.now result }
{
    if same(name, b"true") {
        return Form::Truth(true);
    }
    if same(name, b"false") {
        return Form::Truth(false);
    }
    let found = find_member(members, names, name);
    match found {
        Some(row) => member_form(members, names, row),
        None => Form::NoForm,
    }
}

// The same of a symbol's text.
pub fn word_form(members: &[u64], names: &[u8], text: &[u8], offset: u64, size: u64) -> Form
    ensures { WordForm members.now names.now (text_at text.now offset size) result }
{
    let range = clamp(offset, size, text.len());
    let start = range.start;
    let end = range.end;
    name_form(members, names, &text[start..end])
}
