// (NAME ..): an entity or a record, by the sort of NAME's row.
ghost use Rattle.forms.specs.Leaf.{EntityForm};
ghost use Rattle.forms.specs.Form.{RowForm, MadeForm};

use crate::form::Form;
use arena::{Node, node_at};
use tables::{SortRow, clamp, find_sort_name, sort_at};

// An entity of a row, its text at a node.
fn entity_form(nodes: &[u64], row: usize, at: usize) -> Form
    ensures { EntityForm nodes.now row at result }
{
    let node = node_at(nodes, at);
    let Node::String { size, offset } = node else {
        return Form::NoForm;
    };
    Form::Entity { row, offset, size }
}

// So many arguments from a node on.
fn row_form(sorts: &[u64], nodes: &[u64], row: usize, first: usize, count: u64) -> Form
    ensures { RowForm sorts.now nodes.now row first count result }
{
    let sort = sort_at(sorts, row);
    match sort {
        SortRow::Entity => entity_form(nodes, row, first),
        SortRow::Record { first: _, size: _ } => Form::Record { row, first, count },
        _ => Form::NoForm,
    }
}

pub fn made_form(
    sorts: &[u64],
    names: &[u8],
    nodes: &[u64],
    text: &[u8],
    offset: u64,
    size: u64,
    first: usize,
    count: u64,
) -> Form
    ensures { MadeForm sorts.now names.now nodes.now text.now offset size first count result }
{
    let range = clamp(offset, size, text.len());
    let start = range.start;
    let end = range.end;
    let found = find_sort_name(sorts, names, &text[start..end]);
    match found {
        Some(row) => row_form(sorts, nodes, row, first, count),
        None => Form::NoForm,
    }
}
