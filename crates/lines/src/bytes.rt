// Bytes of a text.
ghost use Rattle.std.specs.Prelude.{◌≡◌, ◌==◌, ◌+◌, ◌<◌, length, drop, Some, None, MatchOption, position};
ghost use Rattle.lines.specs.Words.{before, past};

// Where `byte` first stands.
fn first_at(bytes: &[u8], byte: u8) -> Option<usize>
    ensures { result ≡ position (λ b. b == byte) bytes.now }
{
    bytes.iter().position(|b| *b == byte)
}

// What stands after a byte.
fn rest_after(bytes: &[u8], at: usize) -> &[u8]
    requires { at < length bytes.now }
    ensures { result.now ≡ drop (at + 1) bytes.now }
{
    &bytes[at + 1..]
}

// What stands before the first `byte` and after it; none where it does not stand.
pub fn split_once(bytes: &[u8], byte: u8) -> Option<(&[u8], &[u8])>
    ensures { MatchOption result
        ((before byte bytes.now ≡ bytes.now) × (past byte bytes.now ≡ None))
        (λ p. (before byte bytes.now ≡ p.0.now) × (past byte bytes.now ≡ Some p.1.now) × (length p.1.now < length bytes.now)) }
{
    let at = first_at(bytes, byte)?;
    Some((&bytes[..at], rest_after(bytes, at)))
}
