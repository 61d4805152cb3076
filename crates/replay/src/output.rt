// What goes to standard output.
ghost use Rattle.std.specs.Prelude.{◌≤◌, length};

use crate::puts::{put, put_hex};
use crate::streams::OUTPUT;

// The front of a buffer up to an end.
pub fn flush(line: &[u8], end: usize) {
    if end <= line.len() {
        io::write_all(OUTPUT, &line[..end]);
    }
}

// The same, with a line feed behind it.
pub fn finish(line: &mut [u8], end: usize) {
    let to = put(b"\n", line, end);
    flush(line, to);
}

// Where a piece of at most spare bytes may begin: at the front again, once there might be no room for it behind the others.
pub fn room(line: &[u8], end: usize, spare: usize) -> usize
    ensures { result ≤ length line.now }
{
    if line.len() < end {
        return 0;
    }
    if spare <= line.len() - end {
        return end;
    }
    flush(line, end);
    0
}

// Bytes as pairs of digits on standard output, some thousands at a time by way of a lent line.
pub fn write_hex(bytes: &[u8], line: &mut [u8]) {
    for chunk in bytes.chunks(8192) {
        let to = put_hex(chunk, line, 0);
        flush(line, to);
    }
}
