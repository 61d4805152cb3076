// Where a symbol or a comment that has begun ends.
ghost use Rattle.std.specs.Prelude.{◌≡◌, Bool, ℕ, ◌+◌, ◌<◌, drop};
ghost use Rattle.lexicon.specs.Class.{classes};
ghost use Rattle.lexicon.specs.Span.{span_by, in_symbol, symbol_span, line_span};

use crate::class::{DIGIT, OTHER, class_of};

#[tactic(auto, unfolding(crate::specs::Span::in_symbol))]
fn in_symbol(table: &[u8; 256], byte: u8) -> bool
    requires { table.now ≡ classes }
    ensures { result ≡ in_symbol byte }
{
    let class = class_of(table, byte);
    class == OTHER || class == DIGIT
}

// The end of the bytes from start on that pass a test.
fn run_end<F: Fn(u8) -> bool>(s: &[u8], start: usize, passes: F) -> usize
    requires { F.IsAlwaysCallable passes }
    ensures { (test : ℕ → Bool) → ((byte : ℕ) (yes : Bool) → byte < 256 → F.post passes byte yes → yes ≡ test byte) → result ≡ start + span_by test (drop start s.now) }
{
    for at in start..s.len() {
        if !passes(s[at]) {
            return at;
        }
    }
    start.max(s.len())
}

// The end of the symbol bytes from start on.
pub fn span_end(table: &[u8; 256], s: &[u8], start: usize) -> usize
    requires { table.now ≡ classes }
    ensures { result ≡ start + symbol_span (drop start s.now) }
{
    run_end(s, start, |byte| in_symbol(table, byte))
}

// The end of the line from start on.
#[tactic(auto, unfolding(crate::specs::Span::in_line))]
pub fn line_end(s: &[u8], start: usize) -> usize
    ensures { result ≡ start + line_span (drop start s.now) }
{
    run_end(s, start, |byte| byte != b'\n')
}
