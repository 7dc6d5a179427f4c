// A line of the text, as a command.
ghost use Rattle.std.specs.Prelude.{◌≡◌, Some, None, MatchOption};
ghost use Rattle.lines.specs.Left.{words_left};
ghost use Rattle.commands.specs.Commands.{first_figure, kind_of, district_of, lay_of, reprice_of, close_of, open_of, mark_of, unmark_of, dug_of, command_of, understood};

use crate::command::{Call, Command, CostKind, Figure};
use crate::figures::figure;
use crate::parts::read_plan;
use lines::{Words, without_comment};

// The cost that the next word says.
fn next_figure(line: &mut Words<'_>) -> Option<Figure>
    ensures { MatchOption result
        (first_figure (words_left line.old) ≡ None)
        (λ cost. first_figure (words_left line.old) ≡ Some (cost, words_left line.new)) }
{
    figure(line.next()?)
}

// In what costs are told, where nothing else is said.
fn read_kind(mut line: Words<'_>) -> Option<CostKind>
    ensures { result ≡ kind_of (words_left line.entry) }
{
    match line.next() {
        None => Some(CostKind::Money),
        Some(b"crossings") => line.whole(CostKind::Crossings),
        Some(_) => None,
    }
}

fn read_district(mut line: Words<'_>) -> Option<Command>
    ensures { result ≡ district_of (words_left line.entry) }
{
    let junctions = line.number()?;
    let capacity = line.number()?;
    let kind = read_kind(line)?;
    Some(Command::District {
        junctions,
        capacity,
        kind,
    })
}

fn read_lay(mut line: Words<'_>) -> Option<Command>
    ensures { result ≡ lay_of (words_left line.entry) }
{
    let a = line.number()?;
    let b = line.number()?;
    let cost = next_figure(&mut line)?;
    line.whole(Command::Call(Call::Lay { a, b, cost }))
}

fn read_reprice(mut line: Words<'_>) -> Option<Command>
    ensures { result ≡ reprice_of (words_left line.entry) }
{
    let run = line.number()?;
    let cost = next_figure(&mut line)?;
    line.whole(Command::Call(Call::Reprice { run, cost }))
}

// (Four that differ in their call, as their clauses do: by a closure `close_of` would be named nowhere.)
fn read_close(mut line: Words<'_>) -> Option<Command>
    ensures { result ≡ close_of (words_left line.entry) }
{
    let run = line.number()?;
    line.whole(Command::Call(Call::Close { run }))
}

fn read_open(mut line: Words<'_>) -> Option<Command>
    ensures { result ≡ open_of (words_left line.entry) }
{
    let run = line.number()?;
    line.whole(Command::Call(Call::Open { run }))
}

fn read_mark(mut line: Words<'_>) -> Option<Command>
    ensures { result ≡ mark_of (words_left line.entry) }
{
    let junction = line.number()?;
    line.whole(Command::Call(Call::Mark { junction }))
}

fn read_unmark(mut line: Words<'_>) -> Option<Command>
    ensures { result ≡ unmark_of (words_left line.entry) }
{
    let junction = line.number()?;
    line.whole(Command::Call(Call::Unmark { junction }))
}

fn read_dug(mut line: Words<'_>) -> Option<Command>
    ensures { result ≡ dug_of (words_left line.entry) }
{
    let cost = next_figure(&mut line)?;
    line.whole(Command::Call(Call::Dug { cost }))
}

// A command by its first word and what stands after it.
fn read_command(verb: &[u8], line: Words<'_>) -> Option<Command>
    ensures { result ≡ command_of verb.now (words_left line.entry) }
{
    match verb {
        b"district" => read_district(line),
        b"lay" => read_lay(line),
        b"reprice" => read_reprice(line),
        b"close" => read_close(line),
        b"open" => read_open(line),
        b"mark" => read_mark(line),
        b"unmark" => read_unmark(line),
        b"plan" => read_plan(line),
        b"dug" => read_dug(line),
        _ => None,
    }
}

// What a line says; none where it is not understood.
pub fn read_line(line: &[u8]) -> Option<Command>
    ensures { result ≡ understood line.now }
{
    let mut words = Words::of(without_comment(line));
    match words.next() {
        None => Some(Command::Nothing),
        Some(verb) => read_command(verb, words),
    }
}
