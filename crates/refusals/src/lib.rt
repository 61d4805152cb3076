// Document 01, "Numbers given back": every refusal, in the order of its number.
#![tactic(auto)]

ghost use Rattle.std.specs.Prelude.{◌≡◌};
ghost use Rattle.refusals.specs.Number.{number_of, detail_of};

// A case that names a need holds it: how many nodes, text bytes, open brackets or output bytes would have been enough.
#[derive(Clone, Copy)]
pub enum Refusal {
    UnexpectedEnd,
    Utf8Error,
    StringParseError,
    ParseIntError,
    UnclosedSExpr,
    TrailingTokens,
    IntegerOverflow,
    ZeroWidthBitVec,
    InputTooLong,
    NodeRoom(usize),
    TextRoom(usize),
    DepthRoom(usize),
    UnexpectedModel,
    UnknownType,
    UnknownLiteral,
    UnmatchedType,
    UnmatchedFieldType,
    UnmatchedRecordType,
    InvalidOptionType,
    InvalidSetType,
    UnexpectedForm,
    NotCovered,
    NoSortRow,
    TooNested,
    BadTable,
    OutRoom(usize),
    BadArena,
    SetUnionNonLiterals,
}

// Over so many bytes, or ends, of one lent input: 9.
pub const INPUT_LIMIT: usize = 16777216;

impl Refusal {
    // Stays: the numbers are document 01's, and four cases hold a need, so no cast or derive gives them.
    pub fn number(self) -> u64
        ensures { result ≡ number_of self }
    {
        match self {
            Refusal::UnexpectedEnd => 1,
            Refusal::Utf8Error => 2,
            Refusal::StringParseError => 3,
            Refusal::ParseIntError => 4,
            Refusal::UnclosedSExpr => 5,
            Refusal::TrailingTokens => 6,
            Refusal::IntegerOverflow => 7,
            Refusal::ZeroWidthBitVec => 8,
            Refusal::InputTooLong => 9,
            Refusal::NodeRoom(_) => 10,
            Refusal::TextRoom(_) => 11,
            Refusal::DepthRoom(_) => 12,
            Refusal::UnexpectedModel => 13,
            Refusal::UnknownType => 14,
            Refusal::UnknownLiteral => 15,
            Refusal::UnmatchedType => 16,
            Refusal::UnmatchedFieldType => 17,
            Refusal::UnmatchedRecordType => 18,
            Refusal::InvalidOptionType => 19,
            Refusal::InvalidSetType => 20,
            Refusal::UnexpectedForm => 21,
            Refusal::NotCovered => 22,
            Refusal::NoSortRow => 23,
            Refusal::TooNested => 24,
            Refusal::BadTable => 25,
            Refusal::OutRoom(_) => 26,
            Refusal::BadArena => 27,
            Refusal::SetUnionNonLiterals => 28,
        }
    }

    // The exact need where room was short, else 0.
    pub fn detail(self) -> usize
        ensures { result ≡ detail_of self }
    {
        match self {
            Refusal::NodeRoom(need)
            | Refusal::TextRoom(need)
            | Refusal::DepthRoom(need)
            | Refusal::OutRoom(need) => need,
            _ => 0,
        }
    }
}
