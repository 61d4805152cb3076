// The members of a set are noted by a bit of their `set.singleton`, which no operator has.
ghost use Rattle.equality.specs.Notes.{ClearsAt, MetAt};

use crate::part::{Part, part_at};
use marks::{marked, remember};
use settled::taken;

// No member of the set at a node is noted, with so many levels.
pub fn clear_members(nodes: &[u64], text: &[u8], marks: &mut [u64], at: usize, allow: usize)
    ensures { ClearsAt marks.old marks.new nodes.now text.now at allow }
{
    let place = taken(nodes, text, marks, at);
    let part = part_at(nodes, text, place);
    match part {
        Part::Empty => {}
        Part::One(_) => remember(marks, place, false),
        Part::Both { left, right } => {
            if allow == 0 {
                return;
            }
            clear_members(nodes, text, marks, left, allow - 1);
            clear_members(nodes, text, marks, right, allow - 1);
        }
        Part::NoSet => {}
    }
}

// Whether each member of the set at a node is noted.
pub fn all_met(nodes: &[u64], text: &[u8], marks: &[u64], at: usize, allow: usize) -> bool
    ensures { MetAt marks.now nodes.now text.now at allow result }
{
    let place = taken(nodes, text, marks, at);
    let part = part_at(nodes, text, place);
    match part {
        Part::Empty => true,
        Part::One(_) => marked(marks, place),
        Part::Both { left, right } => {
            if allow == 0 {
                return true;
            }
            if all_met(nodes, text, marks, left, allow - 1) {
                return all_met(nodes, text, marks, right, allow - 1);
            }
            false
        }
        Part::NoSet => true,
    }
}
