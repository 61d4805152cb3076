// The rooms of a case: each has its own, marked, so that it shows what was written.
// Stays: arrays of a fixed length, since a program has fixed memory and no heap.
ghost use Rattle.std.specs.Prelude.{◌≡◌, length};

// What stands in each lent word before a call.
pub const MARK: u64 = 0xEEEEEEEEEEEEEEEE;

// Some bytes more than the longest tables' text and the longest name.
const TEXT: usize = 65600;

// Two rows more than a table may have.
pub const ROWS: usize = 5130;

// Room for the fields of any text: each takes at least two bytes of it.
pub const FIELDS: usize = 32768;

// The words of the five tables.
#[derive(Clone, Copy)]
pub struct Tables<'a> {
    pub sorts: &'a [u64],
    pub fields: &'a [u64],
    pub variables: &'a [u64],
    pub functions: &'a [u64],
    pub members: &'a [u64],
}

pub fn text_bytes() -> [u8; TEXT]
    ensures { 65600 ≡ length result }
{
    [0; TEXT]
}

pub fn row_words() -> [u64; ROWS]
    ensures { 5130 ≡ length result }
{
    [MARK; ROWS]
}

pub fn field_words() -> [u64; FIELDS]
    ensures { 32768 ≡ length result }
{
    [MARK; FIELDS]
}

// So many words at the front, as far as there are so many.
pub fn front(words: &[u64], count: usize) -> &[u64] {
    &words[..count.min(words.len())]
}
