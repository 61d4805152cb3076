// No two rows the same: from the last row to the first, each marks its slot, and only a row whose slot is taken is looked for
// among the later ones.
ghost use Rattle.std.specs.Prelude.{◌≡◌, true, ◌<◌};
ghost use Rattle.tables.specs.Layout.{count};
ghost use Rattle.tables.specs.Right.{alone, alone_sort};
ghost use Rattle.tables.specs.Search.{every_row};

use crate::find::{find_name, is_row};
use crate::row::{clamp, count, word};
use crate::slot::{SLOTS, name_slot, sort_slot};
use crate::sort::{find_kind, find_named, has_name};

// No later row has the name; none has it where the slot of the name has no mark.
fn is_alone(rows: &[u64], names: &[u8], row: usize, mark: u8) -> bool
    requires { (row < count rows.now) × (mark ≡ 0 → alone names.now rows.now row ≡ true) }
    ensures { result ≡ alone names.now rows.now row }
{
    if mark == 0 {
        return true;
    }
    let range = clamp(word(rows, row, 0), word(rows, row, 1), names.len());
    !is_row(find_name(rows, names, &names[range.start..range.end], row + 1))
}

// Stays: one loop for names and sorts takes two closures, the second called only by what the first answered: a longer contract.
pub fn are_alone(rows: &[u64], names: &[u8]) -> bool
    ensures { result ≡ every_row (alone names.now rows.now) 0 (count rows.now) }
{
    let mut marks = [0u8; SLOTS];
    for row in (0..count(rows)).rev() {
        let slot = name_slot(rows, names, row, 0);
        if !is_alone(rows, names, row, marks[slot]) {
            return false;
        }
        marks[slot] = 1;
    }
    true
}

// No later row is the same sort; none is where its slot has no mark.
fn is_alone_sort(sorts: &[u64], names: &[u8], row: usize, mark: u8) -> bool
    requires { (row < count sorts.now) × (mark ≡ 0 → alone_sort sorts.now names.now row ≡ true) }
    ensures { result ≡ alone_sort sorts.now names.now row }
{
    if mark == 0 {
        return true;
    }
    let kind = word(sorts, row, 2);
    if has_name(kind) {
        let range = clamp(word(sorts, row, 0), word(sorts, row, 1), names.len());
        return !is_row(find_named(sorts, names, &names[range.start..range.end], row + 1));
    }
    !is_row(find_kind(sorts, kind, word(sorts, row, 3), row + 1))
}

pub fn are_alone_sorts(sorts: &[u64], names: &[u8]) -> bool
    ensures { result ≡ every_row (alone_sort sorts.now names.now) 0 (count sorts.now) }
{
    let mut marks = [0u8; SLOTS];
    for row in (0..count(sorts)).rev() {
        let slot = sort_slot(sorts, names, row);
        if !is_alone_sort(sorts, names, row, marks[slot]) {
            return false;
        }
        marks[slot] = 1;
    }
    true
}
