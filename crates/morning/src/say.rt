// What each line of a district got, on standard output.
use console::{Fault, Marked};
use network::{Cost, Refusal};
use replay::{Call, Reply, Turn};
use sheets::{Entry, Sheet, Trial, find_trial};
use std::fmt;

// How many districts were made, and what was said of the trenches dug.
#[derive(Clone, Copy, Default)]
pub struct Tally {
    pub districts: u64,
    pub agree: u64,
    pub differ: u64,
    pub not_planned: u64,
    // A line was not understood or had no district.
    pub skipped: bool,
}

// A call that was taken and answers with nothing else.
#[derive(Clone, Copy)]
struct Done<K> {
    call: Call<K>,
}

impl<K: Cost> fmt::Display for Done<K> {
    fn fmt<W: fmt::Write>(&self, f: &mut fmt::Formatter<W>) -> fmt::Result {
        match self.call {
            Call::Reprice { run, .. } => write!(f, "repriced {run}"),
            Call::Close { run } => write!(f, "closed {run}"),
            Call::Open { run } => write!(f, "opened {run}"),
            Call::Mark { junction } => write!(f, "marked {junction}"),
            Call::Unmark { junction } => write!(f, "unmarked {junction}"),
            Call::Lay { .. } | Call::Plan(_) => write!(f, "done"),
        }
    }
}

// What a call got.
#[derive(Drop)]
struct Got<'t, K> {
    turn: &'t Turn<K>,
}

impl<K: Cost + fmt::Display> fmt::Display for Got<'_, K> {
    fn fmt<W: fmt::Write>(&self, f: &mut fmt::Formatter<W>) -> fmt::Result {
        match &self.turn.answer {
            None => write!(f, "not tried"),
            Some(Err(why)) => write!(f, "{why}"),
            Some(Ok(Reply::Laid(run))) => write!(f, "run {run}"),
            Some(Ok(Reply::Done)) => {
                let done = Done {
                    call: self.turn.call,
                };
                write!(f, "{done}")
            }
            Some(Ok(Reply::Planned(plan))) => {
                let runs = Marked {
                    row: &self.turn.row,
                };
                let cost = plan.cost;
                let count = plan.count;
                write!(f, "cost {cost}, runs{runs}, count {count}")
            }
        }
    }
}

// The cost of the last plan after a turn: a plan that was refused leaves none.
fn planned_after<K: Cost>(turn: &Turn<K>, before: Option<K>) -> Option<K> {
    match (&turn.answer, turn.call) {
        (Some(Ok(Reply::Planned(plan))), _) => Some(plan.cost),
        (Some(Err(_)), Call::Plan(_)) => None,
        _ => before,
    }
}

// What was paid for a trench, beside what was planned.
#[derive(Clone, Copy)]
enum Compared<K> {
    Agrees,
    Differs { planned: K },
    NotPlanned,
}

impl<K: fmt::Display> fmt::Display for Compared<K> {
    fn fmt<W: fmt::Write>(&self, f: &mut fmt::Formatter<W>) -> fmt::Result {
        match self {
            Compared::Agrees => write!(f, "agrees"),
            Compared::Differs { planned } => write!(f, "differs, planned {planned}"),
            Compared::NotPlanned => write!(f, "not planned"),
        }
    }
}

fn compare<K: Cost + Eq>(paid: K, planned: Option<K>) -> Compared<K> {
    match planned {
        None => Compared::NotPlanned,
        Some(planned) if planned == paid => Compared::Agrees,
        Some(planned) => Compared::Differs { planned },
    }
}

impl Tally {
    fn count<K>(&mut self, compared: &Compared<K>) {
        let counted = match compared {
            Compared::Agrees => &mut self.agree,
            Compared::Differs { .. } => &mut self.differ,
            Compared::NotPlanned => &mut self.not_planned,
        };
        *counted = counted.saturating_add(1);
    }
}

// Why a line was passed over: it was not understood, or it asks something of a district and there is none.
#[derive(Clone, Copy)]
pub enum Passed {
    NotUnderstood,
    NoDistrict,
}

impl fmt::Display for Passed {
    fn fmt<W: fmt::Write>(&self, f: &mut fmt::Formatter<W>) -> fmt::Result {
        match self {
            Passed::NotUnderstood => write!(f, "not understood"),
            Passed::NoDistrict => write!(f, "no district"),
        }
    }
}

pub fn say_passed(
    rt: &HostRuntime,
    line: u64,
    why: Passed,
    tally: &mut Tally,
) -> Result<(), Fault> {
    println!(rt; "line {line}: {why}")?;
    tally.skipped = true;
    Ok(())
}

// The lines of a district whose making was refused.
fn say_unmade<K: Cost>(
    rt: &HostRuntime,
    why: Refusal,
    sheet: &Sheet<K>,
    tally: &mut Tally,
) -> Result<(), Fault> {
    println!(rt; "{why}")?;
    for entry in sheet.entries.iter() {
        match *entry {
            Entry::NotUnderstood { line } => say_passed(rt, line, Passed::NotUnderstood, tally)?,
            Entry::Asked { line, .. } | Entry::Dug { line, .. } => {
                say_passed(rt, line, Passed::NoDistrict, tally)?
            }
        }
    }
    Ok(())
}

// The turn of the call at this place among the requests.
fn turn_at<'t, K: Cost>(
    sheet: &Sheet<K>,
    trials: &'t [Trial<K>],
    at: usize,
) -> Option<&'t Turn<K>> {
    let request = sheet.requests.get(at)?;
    let trial = find_trial(trials, request.tools)?;
    trial.turns.as_ref().ok()?.get(at)
}

// The lines of a district that was made.
fn say_made<K: Cost + Eq + fmt::Display>(
    rt: &HostRuntime,
    sheet: &Sheet<K>,
    trials: &[Trial<K>],
    tally: &mut Tally,
) -> Result<(), Fault> {
    let junctions = sheet.junctions;
    let capacity = sheet.capacity;
    println!(rt; "district: {junctions} junctions, room for {capacity} runs")?;
    tally.districts = tally.districts.saturating_add(1);
    let mut planned = None;
    for entry in sheet.entries.iter() {
        match *entry {
            Entry::NotUnderstood { line } => say_passed(rt, line, Passed::NotUnderstood, tally)?,
            Entry::Dug { cost, .. } => {
                let compared = compare(cost, planned);
                println!(rt; "dug {cost}: {compared}")?;
                tally.count(&compared);
            }
            Entry::Asked { at, .. } => {
                if let Some(turn) = turn_at(sheet, trials, at) {
                    println!(rt; "{}", Got { turn })?;
                    planned = planned_after(turn, planned);
                }
            }
        }
    }
    Ok(())
}

// All lines of a sheet. The making gets the same answer with all tools.
pub fn say_sheet<K: Cost + Eq + fmt::Display>(
    rt: &HostRuntime,
    sheet: &Sheet<K>,
    trials: &[Trial<K>],
    tally: &mut Tally,
) -> Result<(), Fault> {
    match trials.first().map(|trial| &trial.turns) {
        Some(Err(untried)) => say_unmade(rt, untried.why, sheet, tally),
        _ => say_made(rt, sheet, trials, tally),
    }
}
