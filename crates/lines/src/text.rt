// The lines of a text.
ghost use Rattle.std.specs.Prelude.{◌≡◌, ◌<◌, [], ◌∷◌, length, MatchOption};
ghost use Rattle.std.specs.Iterator.{YieldsFirstBy, item_count};
ghost use Rattle.lines.specs.Words.{lines};
ghost use Rattle.lines.specs.Left.{lines_left};

use crate::bytes::split_once;

// The first line of a text, and what stands after it.
#[tactic(auto, using(crate::proofs::Splitting::first_line))]
pub fn next_line(text: &[u8]) -> Option<(&[u8], &[u8])>
    ensures { MatchOption result
        (lines text.now ≡ [])
        (λ p. (lines text.now ≡ p.0.now ∷ lines p.1.now) × (length p.1.now < length text.now)) }
{
    if text.is_empty() {
        return None;
    }
    Some(split_once(text, b'\n').unwrap_or((text, b"")))
}

// The lines of a text, one after the other.
#[derive(Clone, Copy)]
pub struct Lines<'t> {
    rest: &'t [u8],
}

impl<'t> Lines<'t> {
    pub fn of(text: &'t [u8]) -> Lines<'t>
        ensures { lines_left result ≡ lines text.now }
    {
        Lines { rest: text }
    }
}

impl<'t> Iterator for Lines<'t> {
    type Item = &'t [u8];

    ghost next_gives = { YieldsFirstBy (λ l. l.now) lines_left };

    ghost remaining = { item_count lines_left };

    fn next(&mut self) -> Option<&'t [u8]> {
        let (line, rest) = next_line(self.rest)?;
        self.rest = rest;
        Some(line)
    }
}
