// The slot of a row: rows that are the same have one slot, so a slot that no later row has taken tells a row from all later ones.
ghost use Rattle.std.specs.Prelude.{◌≡◌, [], ◌<◌};
ghost use Rattle.tables.specs.Layout.{name_at, sort_at};
ghost use Rattle.tables.specs.Rules.{identity};
ghost use Rattle.tables.specs.Right.{lent_sorts};
ghost use Rattle.tables.specs.Slot.{slots, next_slot, slot_from};

use crate::row::{clamp, word};
use crate::sort::{BIT_VEC, ENTITY, has_name};

// How many slots there are: four for each row that a table may have.
pub const SLOTS: usize = 4096;

const FACTOR: usize = 123;

// By one number more.
fn next_slot(slot: usize, number: u64) -> usize
    requires { slot < slots }
    ensures { result ≡ next_slot slot number }
{
    (slot * FACTOR + number as usize % SLOTS) % SLOTS
}

// From a slot on, by each byte.
fn slot_from(start: usize, text: &[u8]) -> usize
    requires { start < slots }
    ensures { result ≡ slot_from start text.now }
{
    let mut slot = start;
    for byte in text {
        slot = next_slot(slot, u64::from(*byte));
    }
    slot
}

// Of a row's name.
pub fn name_slot(rows: &[u64], names: &[u8], row: usize, slot: usize) -> usize
    requires { slot < slots }
    ensures { result ≡ slot_from slot (name_at names.now rows.now row) }
{
    let range = clamp(word(rows, row, 0), word(rows, row, 1), names.len());
    slot_from(slot, &names[range.start..range.end])
}

// Of what tells a sort row from the others.
pub fn sort_slot(sorts: &[u64], names: &[u8], row: usize) -> usize
    ensures { result ≡ slot_from 0 (identity (sort_at (lent_sorts sorts.now [] names.now) row)) }
{
    let kind = word(sorts, row, 2);
    if has_name(kind) {
        return name_slot(sorts, names, row, next_slot(0, ENTITY));
    }
    let slot = next_slot(0, kind);
    if kind < BIT_VEC {
        return slot;
    }
    next_slot(slot, word(sorts, row, 3))
}
