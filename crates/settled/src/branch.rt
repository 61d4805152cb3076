// The branch that is taken: an `ite` at a node is left for its branch by what is remembered of its condition.
ghost use Rattle.settled.specs.Taken.{StepAt, TakesAt};

use marks::marked;
use shapes::{Found, list_at, shape_at};

fn step_at(nodes: &[u64], text: &[u8], marks: &[u64], at: usize) -> Option<usize>
    ensures { StepAt marks.now nodes.now text.now at result }
{
    list_at(nodes, at)?;
    let shape = shape_at(nodes, text, at);
    let Found::Ite { left, right, .. } = shape else {
        return None;
    };
    if marked(marks, at) {
        return Some(left);
    }
    Some(right)
}

// The node where no branch is left to take; a branch stands behind its `ite`, and words in which it does not are no arena.
pub fn taken(nodes: &[u64], text: &[u8], marks: &[u64], at: usize) -> usize
    ensures { TakesAt marks.now nodes.now text.now at result }
{
    let mut place = at;
    while place < nodes.len() {
        let step = step_at(nodes, text, marks, place);
        let Some(next) = step else {
            return place;
        };
        if next <= place {
            return place;
        }
        place = next;
    }
    place
}
