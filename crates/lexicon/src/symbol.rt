// Whether a name is what the lexer gives as one symbol.
ghost use Rattle.std.specs.Prelude.{◌≡◌};
ghost use Rattle.lexicon.specs.Symbol.{one_symbol};

use crate::class::{OTHER, class_of, class_table};
use crate::span::span_end;
use utf8::is_utf8;

pub fn is_symbol(name: &[u8]) -> bool
    ensures { result ≡ one_symbol name.now }
{
    if name.is_empty() {
        return false;
    }
    let table = class_table();
    if class_of(&table, name[0]) != OTHER || span_end(&table, name, 1) != name.len() {
        return false;
    }
    is_utf8(name)
}
