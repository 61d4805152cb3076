// The second pass: every piece is written, where the first has found a tree and room for it.
ghost use Rattle.std.specs.Prelude.{◌≡◌, ◌≤◌, ◌<◌, ◌^◌, length};
ghost use Rattle.lexicon.specs.Class.{classes};
ghost use Rattle.arena.specs.Layout.{node_words};
ghost use Rattle.brackets.specs.Put.{FineOpen, FineClose};
ghost use Rattle.tokens.specs.declared.lexeme.Kind.TheVariants.{Bits, Number, Quoted, Name};
ghost use Rattle.tokens.specs.Piece.{bits_of, piece_of};
ghost use Rattle.refusals.specs.Limit.{input_limit};
ghost use Rattle.reader.specs.Write.{FineNode, Noded, FineBracket, OpenedBy, ClosedBy, FineNumber, Fine, Numbered, Texted, Pieced, Ready, Wrote};

use arena::{BIT_VEC, NUMERAL, STRING, SYMBOL};
use brackets::{Scan, Words};
use tokens::Kind;
use words::Radix;

// An atom's node; its text is written already.
fn write_node(scan: Scan, words: Words, size: usize, nodes: &mut [u64], stack: &[u64]) -> Scan
    requires { FineNode scan (node_words words.kind words.one words.two words.three) size nodes.old stack.now }
    ensures { Noded scan (node_words words.kind words.one words.two words.three) size nodes.old nodes.new stack.now result }
{
    brackets::put_leaf(scan.nodes, scan.depth, words, nodes, stack);
    scan.adds(size)
}

// How many bits a digit stands for.
fn digit_bits(radix: Radix) -> u64
    ensures { result ≡ bits_of radix }
{
    match radix {
        Radix::Binary => 1,
        Radix::Decimal => 0,
        Radix::Hexadecimal => 4,
    }
}

fn write_bits(scan: Scan, radix: Radix, digits: &[u8], nodes: &mut [u64], stack: &[u64]) -> Scan
    requires { (length digits.now ≤ input_limit) × FineNumber scan (piece_of (Bits radix) digits.now) nodes.old stack.now }
    ensures { Numbered scan (piece_of (Bits radix) digits.now) nodes.old nodes.new stack.now result }
{
    let Ok(number) = words::parse(digits, radix) else {
        return scan;
    };
    let width = digit_bits(radix) * digits.len() as u64;
    let full = number.sign_extend(width);
    let words = Words {
        kind: BIT_VEC,
        one: width,
        two: full.low,
        three: full.high,
    };
    write_node(scan, words, 0, nodes, stack)
}

fn write_numeral(scan: Scan, digits: &[u8], nodes: &mut [u64], stack: &[u64]) -> Scan
    requires { FineNumber scan (piece_of Number digits.now) nodes.old stack.now }
    ensures { Numbered scan (piece_of Number digits.now) nodes.old nodes.new stack.now result }
{
    let Ok(number) = words::parse(digits, Radix::Decimal) else {
        return scan;
    };
    let words = Words {
        kind: NUMERAL,
        one: 0,
        two: number.low,
        three: number.high,
    };
    write_node(scan, words, 0, nodes, stack)
}

// The text goes to the front of the text's unwritten tail.
fn write_string(
    scan: Scan,
    inside: &[u8],
    nodes: &mut [u64],
    text: &mut [u8],
    stack: &[u64],
) -> Scan
    requires { Fine scan (piece_of Quoted inside.now) nodes.old text.old stack.now }
    ensures { Texted scan (piece_of Quoted inside.now) nodes.old nodes.new text.old text.new stack.now result }
{
    let at = scan.text;
    let size = strings::write_text(inside, &mut text[at..]);
    let words = Words {
        kind: STRING,
        one: size as u64,
        two: at as u64,
        three: 0,
    };
    write_node(scan, words, size, nodes, stack)
}

fn write_name(scan: Scan, name: &[u8], nodes: &mut [u64], text: &mut [u8], stack: &[u64]) -> Scan
    requires { Fine scan (piece_of Name name.now) nodes.old text.old stack.now }
    ensures { Texted scan (piece_of Name name.now) nodes.old nodes.new text.old text.new stack.now result }
{
    let at = scan.text;
    let size = lent::copy(name, &mut text[at..]);
    let words = Words {
        kind: SYMBOL,
        one: size as u64,
        two: at as u64,
        three: 0,
    };
    write_node(scan, words, size, nodes, stack)
}

fn write_open(scan: Scan, nodes: &mut [u64], stack: &mut [u64]) -> Scan
    requires { FineBracket scan (FineOpen scan.nodes scan.depth nodes.old stack.old) }
    ensures { OpenedBy scan nodes.old nodes.new stack.old stack.new result }
{
    brackets::put_open(scan.nodes, scan.depth, nodes, stack);
    scan.opens()
}

fn write_close(scan: Scan, nodes: &mut [u64], stack: &[u64]) -> Scan
    requires { FineBracket scan (FineClose scan.depth nodes.old stack.now) }
    ensures { ClosedBy scan nodes.old nodes.new stack.now result }
{
    brackets::put_close(scan.nodes, scan.depth, nodes, stack);
    scan.closes()
}

fn write_piece(
    scan: Scan,
    kind: Kind,
    content: &[u8],
    nodes: &mut [u64],
    text: &mut [u8],
    stack: &mut [u64],
) -> Scan
    requires { (length content.now ≤ input_limit) × Fine scan (piece_of kind content.now) nodes.old text.old stack.old }
    ensures { Pieced scan (piece_of kind content.now) nodes.old nodes.new text.old text.new stack.old stack.new result }
{
    match kind {
        Kind::Blank | Kind::Stray | Kind::Unclosed => scan,
        Kind::Opening => write_open(scan, nodes, stack),
        Kind::Closing => write_close(scan, nodes, stack),
        Kind::Bits(radix) => write_bits(scan, radix, content, nodes, stack),
        Kind::Number => write_numeral(scan, content, nodes, stack),
        Kind::Quoted => write_string(scan, content, nodes, text, stack),
        Kind::Name => write_name(scan, content, nodes, text, stack),
    }
}

pub fn write_tokens(
    table: &[u8; 256],
    s: &[u8],
    nodes: &mut [u64],
    text: &mut [u8],
    stack: &mut [u64],
)
    requires { (table.now ≡ classes) × (length s.now ≤ input_limit) × Ready s.now nodes.old text.old stack.old }
    ensures { Wrote s.now nodes.old nodes.new text.old text.new stack.old stack.new }
{
    let mut scan = Scan::begin();
    let mut at = 0;
    while at < s.len() {
        let found = tokens::lexeme_at(table, s, at);
        let from = at + found.skip;
        let end = from + found.size;
        scan = write_piece(scan, found.kind, &s[from..end], nodes, text, stack);
        at = tokens::past_blanks(table, s, at + found.width);
    }
}
