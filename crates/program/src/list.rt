// The files, and the buffers that they are read into.
ghost use Rattle.std.specs.Prelude.{◌≡◌, ◌≤◌, length};

use commands::Form;
use std::fs;
use std::io::Read;
use std::rt::Files;

// The numbers of the two streams.
const INPUT: i32 = 0;

const OUTPUT: i32 = 1;

// One byte more than an input may have, so that a longer one shows.
// Stays: arrays of a fixed length with lengths beside them, since a program has fixed memory and no heap.
fn input_bytes() -> [u8; 65537]
    ensures { 65537 ≡ length result }
{
    [0; 65537]
}

// What a file holds, up to a buffer's end; a read that fails ends it.
fn read_front<F: Read>(file: &mut F, buffer: &mut [u8]) -> usize
    ensures { result ≤ length buffer.old }
{
    let mut count = 0;
    while count < buffer.len() {
        let Ok(more) = file.read(&mut buffer[count..]) else {
            return count;
        };
        if more == 0 {
            return count;
        }
        count += more;
    }
    count
}

// A file that cannot be opened reads as empty.
fn read_tables<R: Files>(rt: &R, tables: &mut [u8]) -> usize
    ensures { result ≤ length tables.old }
{
    let Ok(mut file) = fs::open(rt, "tables.txt") else {
        return 0;
    };
    read_front(&mut file, tables)
}

fn list_files<R: Files>(rt: &R, form: Form, tables: &mut [u8], reply: &mut [u8], out: &mut [u8]) {
    let rows = read_tables(rt, tables);
    let bytes = io::read_full(INPUT, reply);
    let count = reply::print_reply(form, &tables[..rows], &reply[..bytes], out);
    io::write_all(OUTPUT, &out[..count]);
}

pub fn run<R: Files>(rt: &R, form: Form) {
    let mut tables = input_bytes();
    let mut reply = input_bytes();
    let mut out = io::large_buffer();
    list_files(rt, form, &mut tables, &mut reply, &mut out);
}
