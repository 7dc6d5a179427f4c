// A text, district by district.
ghost use Rattle.std.specs.Prelude.{OnOk};
ghost use Rattle.commands.specs.Commands.{understood};
ghost use Rattle.sheets.specs.Pages.{Read};

use crate::say::{Passed, Tally, say_passed, say_sheet};
use commands::{Command, Lines, read_line};
use console::Fault;
use network::Cost;
use requests::Figured;
use sheets::{Page, Sheet, try_sheet};
use std::fmt;

// Tries the calls of a district and says what its lines got.
fn finish_sheet<K: Cost + Eq + Figured + fmt::Display>(
    rt: &HostRuntime,
    sheet: &Sheet<K>,
    tally: &mut Tally,
) -> Result<(), Fault> {
    let trials = try_sheet(rt.alloc(), sheet)?;
    say_sheet(rt, sheet, &trials, tally)
}

fn finish(rt: &HostRuntime, page: &Option<Page>, tally: &mut Tally) -> Result<(), Fault> {
    match page {
        None => Ok(()),
        Some(Page::Money(sheet)) => finish_sheet(rt, sheet, tally),
        Some(Page::Crossings(sheet)) => finish_sheet(rt, sheet, tally),
    }
}

// One line more of the text.
fn take_line(
    rt: &HostRuntime,
    number: u64,
    line: &[u8],
    page: &mut Option<Page>,
    tally: &mut Tally,
) -> Result<(), Fault>
    ensures { OnOk result (Read number (understood line.now) page.old page.new) }
{
    let Some(command) = read_line(line) else {
        return match page {
            None => say_passed(rt, number, Passed::NotUnderstood, tally),
            Some(page) => Ok(page.skip(number)?),
        };
    };
    match command {
        Command::Nothing => Ok(()),
        Command::District {
            junctions,
            capacity,
            kind,
        } => {
            finish(rt, &*page, tally)?;
            *page = Some(Page::new(rt.alloc(), junctions, capacity, kind));
            Ok(())
        }
        Command::Call(call) => match page {
            None => say_passed(rt, number, Passed::NoDistrict, tally),
            Some(page) => Ok(page.note(number, call)?),
        },
    }
}

pub fn answer_all(rt: &HostRuntime, text: &[u8]) -> Result<(), Fault> {
    let mut tally = Tally::default();
    let mut page: Option<Page> = None;
    for (number, line) in (1..).zip(Lines::of(text)) {
        take_line(rt, number, line, &mut page, &mut tally)?;
    }
    finish(rt, &page, &mut tally)?;
    println!(rt;
        "{} districts: {} agree, {} differ, {} not planned",
        tally.districts, tally.agree, tally.differ, tally.not_planned
    )?;
    if tally.skipped {
        Err(Fault::Skipped)
    } else {
        Ok(())
    }
}
