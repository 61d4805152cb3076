// Whether a name is an entity's or a record's.
ghost use Rattle.value_text.specs.Made.{MadeOf, MadeRow};

use tables::{SortRow, find_sort_name, sort_at};

// Which of the two, and its row.
#[derive(Clone, Copy)]
pub enum Made {
    Entity(usize),
    Record(usize),
    NoName,
}

fn made_row(sorts: &[u64], row: usize) -> Made
    ensures { MadeRow sorts.now row result }
{
    let sort = sort_at(sorts, row);
    match sort {
        SortRow::Entity => Made::Entity(row),
        SortRow::Record { .. } => Made::Record(row),
        _ => Made::NoName,
    }
}

pub fn made_of(sorts: &[u64], names: &[u8], name: &[u8]) -> Made
    ensures { MadeOf sorts.now names.now name.now result }
{
    let found = find_sort_name(sorts, names, name);
    match found {
        Some(row) => made_row(sorts, row),
        None => Made::NoName,
    }
}
