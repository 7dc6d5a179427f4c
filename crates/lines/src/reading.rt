// What a line says in parts, each a name and its value.
ghost use Rattle.std.specs.Prelude.{◌≡◌, Some, None, Option, MatchOption};
ghost use Rattle.lines.specs.Left.{words_left};
ghost use Rattle.lines.specs.Reading.{Word, bind, once, parts};

use crate::word::Words;

// Gives a value to what has none yet.
pub fn fill<X: Copy>(place: &mut Option<X>, value: Option<X>) -> Option<()>
    ensures { MatchOption result
        ((once place.old value ≡ None) × (place.new ≡ place.old))
        (λ _. (x : X) × (once place.old value ≡ Some x) × (place.new ≡ Some x)) }
{
    if place.is_some() {
        return None;
    }
    *place = Some(value?);
    Some(())
}

// What a line says part by part.
pub trait Parts: Copy {
    ghost with_part: { Self → Word → Word → Option Self };

    // One part more: its name and its value.
    fn with(self, name: &[u8], value: &[u8]) -> Option<Self>
        ensures { result ≡ with_part self name.now value.now };
}

// One part more, whose value may be missing.
fn with_part<P: Parts>(said: P, name: &[u8], value: Option<&[u8]>) -> Option<P>
    ensures { result ≡ bind value.entry (λ v. P.with_part said name.now v.now) }
{
    said.with(name, value?)
}

// The parts of a line, in any order.
pub fn read_parts<P: Parts>(said: P, mut line: Words<'_>) -> Option<P>
    ensures { result ≡ parts P.with_part (words_left line.entry) said }
{
    let mut said = said;
    // Two words a turn, so no `for`.
    while let Some(name) = line.next() {
        said = with_part(said, name, line.next())?;
    }
    Some(said)
}
