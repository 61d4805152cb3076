// The class of each byte, in a table.
ghost use Rattle.std.specs.Prelude.{◌≡◌};
ghost use Rattle.lexicon.specs.Class.{class_of, classes};

pub const BLANK: u8 = 0;

pub const OPENING: u8 = 1;

pub const CLOSING: u8 = 2;

pub const COMMENT: u8 = 3;

pub const QUOTE: u8 = 4;

pub const HASH: u8 = 5;

pub const DIGIT: u8 = 6;

pub const OTHER: u8 = 7;

// An entry for each byte; each row of sixteen stands under the byte that it begins with.
const CLASSES: [u8; 256] = [
    // 00
    OTHER, OTHER, OTHER, OTHER, OTHER, OTHER, OTHER, OTHER, OTHER, BLANK, // tab
    BLANK, // line feed
    OTHER, // vertical tab: no white space
    BLANK, // form feed
    BLANK, // carriage return
    OTHER, OTHER,
    // 10
    OTHER, OTHER, OTHER, OTHER, OTHER, OTHER, OTHER, OTHER, OTHER, OTHER, OTHER, OTHER, OTHER,
    OTHER, OTHER, OTHER,
    // 20
    BLANK, // space
    OTHER, QUOTE, // "
    HASH, // #
    OTHER, OTHER, OTHER, OTHER, OPENING, // (
    CLOSING, // )
    OTHER, OTHER, OTHER, OTHER, OTHER, OTHER,
    // 30
    DIGIT, DIGIT, DIGIT, DIGIT, DIGIT, DIGIT, DIGIT, DIGIT, DIGIT, DIGIT, OTHER, COMMENT, // ;
    OTHER, OTHER, OTHER, OTHER,
    // 40
    OTHER, OTHER, OTHER, OTHER, OTHER, OTHER, OTHER, OTHER, OTHER, OTHER, OTHER, OTHER, OTHER,
    OTHER, OTHER, OTHER,
    // 50
    OTHER, OTHER, OTHER, OTHER, OTHER, OTHER, OTHER, OTHER, OTHER, OTHER, OTHER, OTHER, OTHER,
    OTHER, OTHER, OTHER,
    // 60
    OTHER, OTHER, OTHER, OTHER, OTHER, OTHER, OTHER, OTHER, OTHER, OTHER, OTHER, OTHER, OTHER,
    OTHER, OTHER, OTHER,
    // 70
    OTHER, OTHER, OTHER, OTHER, OTHER, OTHER, OTHER, OTHER, OTHER, OTHER, OTHER, OTHER, OTHER,
    OTHER, OTHER, OTHER,
    // 80
    OTHER, OTHER, OTHER, OTHER, OTHER, OTHER, OTHER, OTHER, OTHER, OTHER, OTHER, OTHER, OTHER,
    OTHER, OTHER, OTHER,
    // 90
    OTHER, OTHER, OTHER, OTHER, OTHER, OTHER, OTHER, OTHER, OTHER, OTHER, OTHER, OTHER, OTHER,
    OTHER, OTHER, OTHER,
    // A0
    OTHER, OTHER, OTHER, OTHER, OTHER, OTHER, OTHER, OTHER, OTHER, OTHER, OTHER, OTHER, OTHER,
    OTHER, OTHER, OTHER,
    // B0
    OTHER, OTHER, OTHER, OTHER, OTHER, OTHER, OTHER, OTHER, OTHER, OTHER, OTHER, OTHER, OTHER,
    OTHER, OTHER, OTHER,
    // C0
    OTHER, OTHER, OTHER, OTHER, OTHER, OTHER, OTHER, OTHER, OTHER, OTHER, OTHER, OTHER, OTHER,
    OTHER, OTHER, OTHER,
    // D0
    OTHER, OTHER, OTHER, OTHER, OTHER, OTHER, OTHER, OTHER, OTHER, OTHER, OTHER, OTHER, OTHER,
    OTHER, OTHER, OTHER,
    // E0
    OTHER, OTHER, OTHER, OTHER, OTHER, OTHER, OTHER, OTHER, OTHER, OTHER, OTHER, OTHER, OTHER,
    OTHER, OTHER, OTHER,
    // F0
    OTHER, OTHER, OTHER, OTHER, OTHER, OTHER, OTHER, OTHER, OTHER, OTHER, OTHER, OTHER, OTHER,
    OTHER, OTHER, OTHER,
];

// The table, for a local that is lent to each use: a constant that is indexed in a loop is built anew at every turn.
pub fn class_table() -> [u8; 256]
    ensures { result ≡ classes }
{
    CLASSES
}

pub fn class_of(table: &[u8; 256], byte: u8) -> u8
    requires { table.now ≡ classes }
    ensures { result ≡ class_of byte }
{
    table[usize::from(byte)]
}
