// The answers of the lookups and of the reading of the tables' text, told.
ghost use Rattle.std.specs.Prelude.{◌≤◌, length};
ghost use Rattle.told.specs.Tells.{Tells};
ghost use Rattle.told.specs.Yields.{found_row, tables_read};

use crate::answer::{code, tell};
use refusals::Refusal;
use tables_text::Counts;

// 1 and the row that was found, or 0 and 0.
pub fn tell_found(answer: Option<usize>, told: &mut [u64]) -> u64
    requires { 2 ≤ length told.old }
    ensures { Tells (found_row answer) told.old result told.new }
{
    match answer {
        Some(row) => tell(&[1, row as u64], told),
        None => tell(&[0, 0], told),
    }
}

// How many words of each buffer the tables took.
pub fn tell_tables(answer: Result<Counts, Refusal>, told: &mut [u64]) -> u64
    requires { 5 ≤ length told.old }
    ensures { Tells (tables_read answer) told.old result told.new }
{
    match answer {
        Ok(
            Counts {
                sorts,
                fields,
                variables,
                functions,
                members,
            },
        ) => tell(
            &[
                sorts as u64,
                fields as u64,
                variables as u64,
                functions as u64,
                members as u64,
            ],
            told,
        ),
        Err(why) => code(why),
    }
}
