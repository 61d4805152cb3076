// What an atom needs of text, or why it is none.
ghost use Rattle.std.specs.Prelude.{◌≡◌};
ghost use Rattle.words.specs.Run.{parsed};
ghost use Rattle.tokens.specs.Piece.{sized_number, sized_string, sized_name, sized_of, piece_of};

use crate::lexeme::Kind;
use refusals::Refusal;
use words::Radix;

fn number_size(digits: &[u8], radix: Radix) -> Result<usize, Refusal>
    ensures { result ≡ sized_number (parsed radix digits.now) }
{
    words::parse(digits, radix)?;
    Ok(0)
}

fn string_size(inside: &[u8]) -> Result<usize, Refusal>
    ensures { result ≡ sized_string inside.now }
{
    strings::measure(inside).ok_or(Refusal::StringParseError)
}

fn name_size(name: &[u8]) -> Result<usize, Refusal>
    ensures { result ≡ sized_name name.now }
{
    if utf8::is_utf8(name) {
        return Ok(name.len());
    }
    Err(Refusal::Utf8Error)
}

pub fn atom_size(kind: Kind, content: &[u8]) -> Result<usize, Refusal>
    ensures { result ≡ sized_of (piece_of kind content.now) }
{
    match kind {
        Kind::Blank | Kind::Opening | Kind::Closing => Ok(0),
        Kind::Bits(radix) => number_size(content, radix),
        Kind::Number => number_size(content, Radix::Decimal),
        Kind::Quoted => string_size(content),
        Kind::Name => name_size(content),
        Kind::Stray | Kind::Unclosed => Err(Refusal::UnexpectedEnd),
    }
}
