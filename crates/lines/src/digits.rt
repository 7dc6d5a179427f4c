// Decimal numbers.
ghost use Rattle.std.specs.Prelude.{◌≡◌};
ghost use Rattle.lines.specs.Numbers.{number_of, one_more};

// A number with one more digit.
fn with_digit(n: u64, b: u8) -> Option<u64>
    ensures { result ≡ one_more n b }
{
    match b {
        b'0'..=b'9' => Some(n.saturating_mul(10).saturating_add((b - b'0') as u64)),
        _ => None,
    }
}

// The number that a word says. One beyond 64 bits is read as the greatest of 64 bits: no junction,
// cost, capacity or limit is so great, so the question about it is answered as for the number itself.
pub fn number(word: &[u8]) -> Option<u64>
    ensures { result ≡ number_of word.now }
{
    if word.is_empty() {
        return None;
    }
    let mut n = 0;
    for b in word {
        n = with_digit(n, *b)?;
    }
    Some(n)
}
