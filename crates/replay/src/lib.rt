// Lines of hexadecimal fields in, lines of answers out: what the programs that replay vectors share.
#![tactic(auto)]

mod fields;
mod lines;
mod marks;
mod output;
mod puts;
mod rooms;
mod rows;
mod streams;

pub use fields::{field_end, next_field, number, split_field, unhex};
pub use lines::{Line, before_lines, each_line, next_line};
pub use marks::{is_marked, mark_bytes};
pub use output::{finish, flush, room, write_hex};
pub use puts::{
    put, put_detailed, put_digits, put_hex, put_named, put_number, put_refusal, put_word,
};
pub use rooms::stack_words;
pub use rows::put_words;
pub use streams::{INPUT, OUTPUT};
