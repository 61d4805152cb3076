// What stands at a place: its kind, and how far it reaches.
ghost use Rattle.std.specs.Prelude.{◌≡◌, ◌+◌, ◌≤◌, ◌<◌, length, drop};
ghost use Rattle.lexicon.specs.Class.{classes};
ghost use Rattle.lexicon.specs.Span.{line_span};
ghost use Rattle.tokens.specs.declared.lexeme.Kind.TheVariants.{Blank};
ghost use Rattle.tokens.specs.Lexeme.{lexeme, run_span, inside, after_quote, bit_vector, after_hash, lexeme_at};

use words::{Radix, digit_worth};

#[derive(Clone, Copy)]
pub enum Kind {
    Blank,
    Opening,
    Closing,
    Bits(Radix),
    Number,
    Quoted,
    Name,
    Stray,
    Unclosed,
}

// The content begins skip bytes after the place and has size bytes; the whole takes width bytes.
#[derive(Clone, Copy)]
pub struct Lexeme {
    pub kind: Kind,
    pub skip: usize,
    pub size: usize,
    pub width: usize,
}

// Where a run of a radix's digits ends.
// Stays: a `while`; with a `for` here and a match in `lexeme_at` numerals took a tenth longer, which of the two was not told apart.
fn run_end(s: &[u8], start: usize, radix: Radix) -> usize
    requires { start ≤ length s.now }
    ensures { result ≡ start + run_span radix (drop start s.now) }
{
    let base = radix.base();
    let mut at = start;
    while at < s.len() {
        let worth = digit_worth(s[at]);
        if base <= worth as u64 {
            return at;
        }
        at += 1;
    }
    at
}

// Where the quote that closes a string stands, or the end: two quotes are passed over.
fn quote_end(s: &[u8], start: usize) -> usize
    requires { start ≤ length s.now }
    ensures { result ≡ start + inside (drop start s.now) }
{
    let mut at = start;
    while at < s.len() {
        if s[at] != b'"' {
            at += 1;
            continue;
        }
        let next = at + 1;
        if s.len() <= next {
            return at;
        }
        if s[next] != b'"' {
            return at;
        }
        at += 2;
    }
    at
}

fn after_quote(s: &[u8], start: usize) -> Lexeme
    requires { start ≤ length s.now }
    ensures { result ≡ after_quote (drop start s.now) }
{
    let end = quote_end(s, start);
    if s.len() <= end {
        return Lexeme {
            kind: Kind::Unclosed,
            skip: 0,
            size: 0,
            width: 1 + (s.len() - start),
        };
    }
    Lexeme {
        kind: Kind::Quoted,
        skip: 1,
        size: end - start,
        width: end - start + 2,
    }
}

fn single(kind: Kind) -> Lexeme
    ensures { result ≡ Rattle.tokens.specs.Lexeme.single kind }
{
    Lexeme {
        kind,
        skip: 0,
        size: 0,
        width: 1,
    }
}

fn bit_vector(s: &[u8], start: usize, radix: Radix) -> Lexeme
    requires { start ≤ length s.now }
    ensures { result ≡ bit_vector radix (drop start s.now) }
{
    let end = run_end(s, start, radix);
    Lexeme {
        kind: Kind::Bits(radix),
        skip: 2,
        size: end - start,
        width: 2 + (end - start),
    }
}

fn after_hash(s: &[u8], start: usize) -> Lexeme
    requires { start ≤ length s.now }
    ensures { result ≡ after_hash (drop start s.now) }
{
    if s.len() <= start {
        return single(Kind::Stray);
    }
    let letter = s[start];
    if letter == b'b' {
        return bit_vector(s, start + 1, Radix::Binary);
    }
    if letter == b'x' {
        return bit_vector(s, start + 1, Radix::Hexadecimal);
    }
    single(Kind::Stray)
}

fn whole(kind: Kind, width: usize) -> Lexeme
    ensures { result ≡ Rattle.tokens.specs.Lexeme.whole kind width }
{
    Lexeme {
        kind,
        skip: 0,
        size: width,
        width,
    }
}

fn comment(s: &[u8], at: usize) -> Lexeme
    requires { at < length s.now }
    ensures { result ≡ lexeme Blank 0 0 (1 + line_span (drop (at + 1) s.now)) }
{
    let end = lexicon::line_end(s, at + 1);
    Lexeme {
        kind: Kind::Blank,
        skip: 0,
        size: 0,
        width: end - at,
    }
}

// Stays: tests one after the other, here and in `after_hash`; with a match in their place, and a `for` in `run_end`, numerals took a tenth longer.
pub fn lexeme_at(table: &[u8; 256], s: &[u8], at: usize) -> Lexeme
    requires { (table.now ≡ classes) × (at < length s.now) }
    ensures { result ≡ lexeme_at (drop at s.now) }
{
    let class = lexicon::class_of(table, s[at]);
    if class == lexicon::BLANK {
        return single(Kind::Blank);
    }
    if class == lexicon::OPENING {
        return single(Kind::Opening);
    }
    if class == lexicon::CLOSING {
        return single(Kind::Closing);
    }
    if class == lexicon::COMMENT {
        return comment(s, at);
    }
    if class == lexicon::QUOTE {
        return after_quote(s, at + 1);
    }
    if class == lexicon::HASH {
        return after_hash(s, at + 1);
    }
    if class == lexicon::DIGIT {
        return whole(Kind::Number, run_end(s, at, Radix::Decimal) - at);
    }
    whole(Kind::Name, lexicon::span_end(table, s, at) - at)
}
