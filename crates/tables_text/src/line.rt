// The parts of a line: what it starts with, and where a word of it or the line itself ends.
ghost use Rattle.std.specs.Prelude.{◌≡◌, ◌+◌, drop};
ghost use Rattle.tables_text.specs.Parse.{begins, span_to};

pub fn starts(s: &[u8], key: &[u8]) -> bool
    ensures { result ≡ begins key.now s.now }
{
    arena::text_is(s, 0, key.len() as u64, key)
}

// The place of the first separator from start on, or the end.
pub fn end_at(s: &[u8], start: usize, byte: u8) -> usize
    ensures { result ≡ start + span_to byte (drop start s.now) }
{
    for at in start..s.len() {
        if s[at] == byte {
            return at;
        }
    }
    start.max(s.len())
}
