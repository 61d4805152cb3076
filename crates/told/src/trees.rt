// The answers of the reader and of the check of 27, told.
ghost use Rattle.std.specs.Prelude.{◌≤◌, length};
ghost use Rattle.told.specs.Tells.{Tells};
ghost use Rattle.told.specs.Yields.{read, checked};

use crate::answer::{code, tell};
use arena_check::Checked;
use reader::Reading;
use refusals::Refusal;

// How many nodes, text bytes and open brackets the tree took.
pub fn tell_reading(answer: Result<Reading, Refusal>, told: &mut [u64]) -> u64
    requires { 3 ≤ length told.old }
    ensures { Tells (read answer) told.old result told.new }
{
    match answer {
        Ok(Reading { nodes, text, depth }) => tell(
            &[nodes as u64, text as u64, depth as u64],
            told,
        ),
        Err(why) => code(why),
    }
}

// How many nodes and text bytes the tree takes.
pub fn tell_checked(answer: Result<Checked, Refusal>, told: &mut [u64]) -> u64
    requires { 2 ≤ length told.old }
    ensures { Tells (checked answer) told.old result told.new }
{
    match answer {
        Ok(Checked { nodes, text }) => tell(&[nodes as u64, text as u64], told),
        Err(why) => code(why),
    }
}
