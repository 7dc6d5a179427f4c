// The words of a line.
ghost use Rattle.std.specs.Prelude.{◌≡◌, ◌<◌, not, [], ◌∷◌, Some, None, length, MatchOption, position};
ghost use Rattle.std.specs.Iterator.{YieldsFirstBy, item_count};
ghost use Rattle.lines.specs.Words.{blank, uncommented, words};
ghost use Rattle.lines.specs.Left.{words_left};
ghost use Rattle.lines.specs.Reading.{first_number, only};

use crate::bytes::split_once;
use crate::digits::number;

// A line without its comment.
pub fn without_comment(line: &[u8]) -> &[u8]
    ensures { result.now ≡ uncommented line.now }
{
    match split_once(line, b'#') {
        Some((said, _)) => said,
        None => line,
    }
}

fn is_blank(b: u8) -> bool
    ensures { result ≡ blank b }
{
    matches!(b, b' ' | b'\t' | b'\r')
}

// Where the first word begins.
fn word_start(line: &[u8]) -> Option<usize>
    ensures { result ≡ position (λ b. not (blank b)) line.now }
{
    line.iter().position(|b| !is_blank(*b))
}

// Where a word ends that begins the line, unless the line ends with it.
fn word_end(line: &[u8]) -> Option<usize>
    ensures { result ≡ position blank line.now }
{
    line.iter().position(|b| is_blank(*b))
}

// The first word of a line, and what stands after it.
fn next_word(line: &[u8]) -> Option<(&[u8], &[u8])>
    ensures { MatchOption result
        (words line.now ≡ [])
        (λ p. (words line.now ≡ p.0.now ∷ words p.1.now) × (length p.1.now < length line.now)) }
{
    let (_, rest) = line.split_at(word_start(line)?);
    Some(rest.split_at(word_end(rest).unwrap_or(rest.len())))
}

// The words of a line, one after the other.
#[derive(Clone, Copy)]
pub struct Words<'t> {
    rest: &'t [u8],
}

impl<'t> Words<'t> {
    pub fn of(line: &'t [u8]) -> Words<'t>
        ensures { words_left result ≡ words line.now }
    {
        Words { rest: line }
    }

    // The number that the next word says.
    pub fn number(&mut self) -> Option<u64>
        ensures { MatchOption result
            (first_number (words_left self.old) ≡ None)
            (λ n. first_number (words_left self.old) ≡ Some (n, words_left self.new)) }
    {
        number(self.next()?)
    }

    // The command, where no word is left.
    pub fn whole<C: Copy>(mut self, command: C) -> Option<C>
        ensures { result ≡ only (words_left self.entry) command }
    {
        match self.next() {
            None => Some(command),
            Some(_) => None,
        }
    }
}

impl<'t> Iterator for Words<'t> {
    type Item = &'t [u8];

    ghost next_gives = { YieldsFirstBy (λ w. w.now) words_left };

    ghost remaining = { item_count words_left };

    fn next(&mut self) -> Option<&'t [u8]> {
        let (word, rest) = next_word(self.rest)?;
        self.rest = rest;
        Some(word)
    }
}
