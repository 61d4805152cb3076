// White space, passed over in one go.
ghost use Rattle.std.specs.Prelude.{◌≡◌, ◌+◌, drop};
ghost use Rattle.lexicon.specs.Class.{classes};
ghost use Rattle.tokens.specs.Lexeme.{blank_span};

// The first place from the start on that is no white space.
pub fn past_blanks(table: &[u8; 256], s: &[u8], start: usize) -> usize
    requires { table.now ≡ classes }
    ensures { result ≡ start + blank_span (drop start s.now) }
{
    // Stays: the start may lie past the end, and is then the answer; behind a `for` that would take `s.len().max(start)`.
    let mut at = start;
    while at < s.len() {
        let class = lexicon::class_of(table, s[at]);
        if class != lexicon::BLANK {
            return at;
        }
        at += 1;
    }
    at
}
