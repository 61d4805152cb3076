// The first pass: every token is counted, so that a fault or the needs are known before anything is written.
ghost use Rattle.std.specs.Prelude.{◌≡◌, ◌+◌, ◌≤◌, ◌<◌, ◌^◌, length};
ghost use Rattle.refusals.specs.Limit.{input_limit};
ghost use Rattle.lexicon.specs.Class.{classes};
ghost use Rattle.brackets.specs.Count.{start};
ghost use Rattle.tokens.specs.Piece.{piece_of, lex};
ghost use Rattle.reader.specs.Tally.{turned, tallied, Ample};

use brackets::Scan;
use refusals::Refusal;
use tokens::Kind;

// One piece more.
fn turn(scan: Scan, kind: Kind, content: &[u8]) -> Result<Scan, Refusal>
    requires { Ample scan (piece_of kind content.now) }
    ensures { result ≡ turned scan (piece_of kind content.now) }
{
    match kind {
        Kind::Blank => Ok(scan),
        Kind::Opening => Ok(scan.opens()),
        Kind::Closing => Ok(scan.closes()),
        Kind::Bits(_) | Kind::Number | Kind::Quoted | Kind::Name => {
            let size = tokens::atom_size(kind, content)?;
            Ok(scan.adds(size))
        }
        Kind::Stray | Kind::Unclosed => Err(Refusal::UnexpectedEnd),
    }
}

pub fn count_tokens(table: &[u8; 256], s: &[u8]) -> Result<Scan, Refusal>
    requires { (table.now ≡ classes) × (length s.now ≤ input_limit) }
    ensures { result ≡ tallied start (lex s.now) }
{
    let mut scan = Scan::begin();
    let mut at = 0;
    while at < s.len() {
        let found = tokens::lexeme_at(table, s, at);
        let from = at + found.skip;
        let end = from + found.size;
        scan = turn(scan, found.kind, &s[from..end])?;
        at = tokens::past_blanks(table, s, at + found.width);
    }
    Ok(scan)
}
