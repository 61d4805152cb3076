// The words that no sort and no enum member may be named.
ghost use Rattle.std.specs.Prelude.{◌≡◌};
ghost use Rattle.ground.specs.Lists.{any};
ghost use Rattle.arena.specs.Text.{same_text};
ghost use Rattle.tables.specs.Kept.{core_words, literal_words, sort_words, kept};

use arena::same;

// Of Booleans and bit vectors.
// Stays: each word by a test of its own, here and in the two below: the compiler makes tests of lengths and constants of them, and a loop over the list took four times as many instructions.
fn is_core(name: &[u8]) -> bool
    ensures { result ≡ any (same_text name.now) core_words }
{
    same(name, b"true")
        || same(name, b"false")
        || same(name, b"not")
        || same(name, b"or")
        || same(name, b"=")
        || same(name, b"ite")
        || same(name, b"bvnego")
        || same(name, b"bvsaddo")
        || same(name, b"bvsmulo")
}

// That literals begin with; those of options and sets first, since all eleven in one chain leave `search` too many cases.
fn is_literal(name: &[u8]) -> bool
    ensures { result ≡ any (same_text name.now) literal_words }
{
    if same(name, b"as")
        || same(name, b"some")
        || same(name, b"none")
        || same(name, b"set.empty")
        || same(name, b"set.singleton")
        || same(name, b"set.union")
    {
        return true;
    }
    same(name, b"Decimal")
        || same(name, b"Datetime")
        || same(name, b"Duration")
        || same(name, b"V4")
        || same(name, b"V6")
}

// That sorts are written with.
fn is_sort_word(name: &[u8]) -> bool
    ensures { result ≡ any (same_text name.now) sort_words }
{
    same(name, b"_")
        || same(name, b"Bool")
        || same(name, b"String")
        || same(name, b"BitVec")
        || same(name, b"Option")
        || same(name, b"Set")
}

pub fn is_kept(name: &[u8]) -> bool
    ensures { result ≡ kept name.now }
{
    is_core(name) || is_literal(name) || is_sort_word(name)
}
