// What a set is made of.
ghost use Rattle.equality.specs.Part.{PartAt};

use shapes::{Found, list_at, shape_at};

#[derive(Clone, Copy)]
pub enum Part {
    Empty,
    One(usize),
    Both { left: usize, right: usize },
    NoSet,
}

// The set at a node that is no `ite`: without a member, with one at a node, or the union of two.
pub fn part_at(nodes: &[u64], text: &[u8], at: usize) -> Part
    ensures { PartAt nodes.now text.now at result }
{
    let list = list_at(nodes, at);
    let Some(_) = list else {
        return Part::NoSet;
    };
    let shape = shape_at(nodes, text, at);
    match shape {
        Found::AsEmpty { sort: _ } => Part::Empty,
        Found::Singleton { value } => Part::One(value),
        Found::Union { left, right } => Part::Both { left, right },
        _ => Part::NoSet,
    }
}
