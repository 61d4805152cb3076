// One case: a letter for its form and its rooms, the tables' text and the reply, in hexadecimal.
ghost use Rattle.std.specs.Prelude.{◌≡◌, length};

use crate::rooms::{Case, Rooms, show_case};
use commands::Form;

// Room for an input that is one byte too long.
fn case_bytes() -> [u8; 65537]
    ensures { 65537 ≡ length result }
{
    [0; 65537]
}

// A small letter is of a reply to get-value, in the rooms of the large one.
fn form_of(letter: u8) -> Form {
    if letter < b'a' {
        Form::Model
    } else {
        Form::Values
    }
}

pub fn answer(case: &[u8]) {
    let [letter, _, rest @ ..] = case else {
        return;
    };
    let (first, second) = replay::split_field(rest);
    let mut tables = case_bytes();
    let mut reply = case_bytes();
    let rows = replay::unhex(first, &mut tables);
    let bytes = replay::unhex(second, &mut reply);
    show_case(Case {
        form: form_of(*letter),
        rooms: Rooms::from(*letter),
        tables: &tables[..rows],
        reply: &reply[..bytes],
    });
}
