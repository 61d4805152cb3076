// Numbers without leading zeros.
ghost use Rattle.std.specs.Prelude.{◌≡◌};
ghost use Rattle.tables_text.specs.Parse.{numeral, digits_from};
ghost use Rattle.tables_text.specs.Told.{number_told};

// A number over 9,999 is none of a lawful row: it is refused before it could grow too large.
fn digits(s: &[u8]) -> Option<u64>
    ensures { result ≡ number_told (digits_from 0 s.now) }
{
    let mut number: u64 = 0;
    for &byte in s {
        if byte < b'0' || b'9' < byte || 1000 <= number {
            return None;
        }
        number = number * 10 + u64::from(byte - b'0');
    }
    Some(number)
}

pub fn number_in(s: &[u8]) -> Option<u64>
    ensures { result ≡ number_told (numeral s.now) }
{
    if s.is_empty() {
        return None;
    }
    if s[0] != b'0' {
        return digits(s);
    }
    if s.len() == 1 {
        return Some(0);
    }
    None
}
