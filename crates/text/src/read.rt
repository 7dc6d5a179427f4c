// A line of the text, as a command.
ghost use Rattle.std.specs.Prelude.{◌≡◌};
ghost use Rattle.lines.specs.Left.{words_left};
ghost use Rattle.text.specs.Commands.{district_of, lay_of, mark_of, dug_of, command_of, understood};

use crate::command::{Call, Command};
use crate::parts::read_plan;
use lines::{Words, without_comment};

fn read_district(mut line: Words<'_>) -> Option<Command>
    ensures { result ≡ district_of (words_left line.entry) }
{
    let junctions = line.number()?;
    let capacity = line.number()?;
    line.whole(Command::District {
        junctions,
        capacity,
    })
}

fn read_lay(mut line: Words<'_>) -> Option<Command>
    ensures { result ≡ lay_of (words_left line.entry) }
{
    let a = line.number()?;
    let b = line.number()?;
    let cost = line.number()?;
    line.whole(Command::Call(Call::Lay { a, b, cost }))
}

// (As in `commands`, over the types of `duct`.)
fn read_mark(mut line: Words<'_>) -> Option<Command>
    ensures { result ≡ mark_of (words_left line.entry) }
{
    let junction = line.number()?;
    line.whole(Command::Call(Call::Mark { junction }))
}

fn read_dug(mut line: Words<'_>) -> Option<Command>
    ensures { result ≡ dug_of (words_left line.entry) }
{
    let cost = line.number()?;
    line.whole(Command::Call(Call::Dug { cost }))
}

// A command by its first word and what stands after it.
fn read_command(verb: &[u8], line: Words<'_>) -> Option<Command>
    ensures { result ≡ command_of verb.now (words_left line.entry) }
{
    match verb {
        b"district" => read_district(line),
        b"lay" => read_lay(line),
        b"mark" => read_mark(line),
        b"plan" => read_plan(line),
        b"dug" => read_dug(line),
        _ => None,
    }
}

// What a line says; none where it is not understood.
pub fn read_line(line: &[u8]) -> Option<Command>
    ensures { result ≡ understood line.now }
{
    let mut words = Words::of(without_comment(line));
    match words.next() {
        None => Some(Command::Nothing),
        Some(verb) => read_command(verb, words),
    }
}
