// Texts of an arena, compared byte by byte.
ghost use Rattle.std.specs.Prelude.{◌≡◌, ◌&&◌, eqb, length};
ghost use Rattle.arena.specs.Text.{same_text, text_is};

fn alike(all: bool, a: u8, b: u8) -> bool
    ensures { result ≡ (all && eqb a b) }
{
    if all { a == b } else { false }
}

// Whether two slices of one length have the same bytes: no byte decides whether the next is looked at, so many go at once.
// Stays: the library's `==` takes a call at more than a few bytes, and three times as long at the names that the code holds.
fn all_alike(a: &[u8], b: &[u8]) -> bool
    requires { length a.now ≡ length b.now }
    ensures { result ≡ same_text a.now b.now }
{
    let mut all = true;
    for i in 0..a.len() {
        all = alike(all, a[i], b[i]);
    }
    all
}

// Whether two slices have the same bytes; most that differ do so in length or in the first byte.
pub fn same(a: &[u8], b: &[u8]) -> bool
    ensures { result ≡ same_text a.now b.now }
{
    if a.len() != b.len() {
        return false;
    }
    if a.is_empty() {
        return true;
    }
    a[0] == b[0] && all_alike(a, b)
}

// Whether the bytes from an offset on are a name; no where they run past the text.
pub fn text_is(text: &[u8], offset: u64, size: u64, name: &[u8]) -> bool
    ensures { result ≡ text_is text.now offset size name.now }
{
    let most = text.len() as u64;
    if most < offset || most - offset < size {
        return false;
    }
    let start = offset as usize;
    let end = (offset + size) as usize;
    same(&text[start..end], name)
}
