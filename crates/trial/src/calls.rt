// Calls written short, and the districts of the worked examples.
ghost use Rattle.std.specs.Prelude.{◌≡◌, ◌-◌, ◌^◌};

use crate::fault::{Fault, Wrong};
use crate::ways::Asked;
use oracle::kind::Kind;
use oracle::record::Record;
use oracle::said::Said;
use replay::{Allowance, Call};
use std::alloc::Global;

// A run by its ends and what it costs in money.
#[derive(Clone, Copy)]
pub struct Priced(pub u64, pub u64, pub u64);

// Four junctions, where the crossing 3 joins the outlets 0, 1 and 2.
pub const STAR: [Priced; 5] = [
    Priced(0, 3, 2),
    Priced(1, 3, 2),
    Priced(2, 3, 2),
    Priced(0, 1, 3),
    Priced(1, 2, 5),
];

// Four junctions with two ways from 1 to 0.
pub const RING: [Priced; 4] = [
    Priced(1, 2, 1),
    Priced(2, 0, 10),
    Priced(1, 3, 3),
    Priced(3, 0, 3),
];

// Seven junctions, each two with a run of one or two.
pub const SEVEN: [Priced; 21] = [
    Priced(0, 1, 2),
    Priced(0, 2, 2),
    Priced(0, 3, 2),
    Priced(0, 4, 1),
    Priced(0, 5, 1),
    Priced(0, 6, 2),
    Priced(1, 2, 2),
    Priced(1, 3, 2),
    Priced(1, 4, 2),
    Priced(1, 5, 1),
    Priced(1, 6, 2),
    Priced(2, 3, 2),
    Priced(2, 4, 2),
    Priced(2, 5, 2),
    Priced(2, 6, 1),
    Priced(3, 4, 1),
    Priced(3, 5, 2),
    Priced(3, 6, 1),
    Priced(4, 5, 2),
    Priced(4, 6, 1),
    Priced(5, 6, 1),
];

// What a call must say, which is noted where it is taken; a plan changes nothing, and what it must say is not told.
pub fn take<K: Kind>(record: &mut Record<K>, call: Call<K>) -> Result<Option<Said>, Fault> {
    let said = match call {
        Call::Lay { a, b, cost } => record.lay(a, b, cost)?.into(),
        Call::Reprice { run, cost } => record.reprice(run, cost).into(),
        Call::Close { run } => record.turn(run, false).into(),
        Call::Open { run } => record.turn(run, true).into(),
        Call::Mark { junction } => record.mark(junction).into(),
        Call::Unmark { junction } => record.unmark(junction).into(),
        Call::Plan(_) => return Ok(None),
    };
    Ok(Some(said))
}

// A plan within so many turns.
pub fn plan_within<K: Kind>(limit: u32) -> Call<K>
    ensures { result ≡ Call.Plan (record { limit = limit; labels = 2 ^ 64 - 1; codes = 2 ^ 64 - 1; junctions = 2 ^ 64 - 1 }) }
{
    Call::Plan(Allowance {
        limit,
        labels: usize::MAX,
        codes: usize::MAX,
        junctions: usize::MAX,
    })
}

// A plan with so many places for labels and codes.
pub fn plan_in<K: Kind>(labels: usize, codes: usize) -> Call<K>
    ensures { result ≡ Call.Plan (record { limit = 2 ^ 32 - 1; labels = labels; codes = codes; junctions = 2 ^ 64 - 1 }) }
{
    Call::Plan(Allowance {
        limit: u32::MAX,
        labels,
        codes,
        junctions: usize::MAX,
    })
}

// Asks for `call` with a row of nine places.
pub fn ask<K: Kind>(asked: &mut Vec<Asked<K>>, call: Call<K>) -> Result<(), Fault> {
    asked.push(Asked { call, row: 9 })?;
    Ok(())
}

// Lays the runs; those from 0 on to `crossed` have a crossing.
pub fn ask_runs<K: Kind>(
    asked: &mut Vec<Asked<K>>,
    runs: &[Priced],
    crossed: usize,
) -> Result<(), Fault> {
    for (i, run) in runs.iter().enumerate() {
        let Priced(a, b, money) = *run;
        let cost = K::of(u64::from(i < crossed), money);
        ask(asked, Call::Lay { a, b, cost })?;
    }
    Ok(())
}

// Marks the junctions from 0 on, so many.
pub fn ask_marks<K: Kind>(asked: &mut Vec<Asked<K>>, marks: u64) -> Result<(), Fault> {
    for junction in 0..marks {
        ask(asked, Call::Mark { junction })?;
    }
    Ok(())
}

// A district of these runs and outlets, not crossed.
pub fn laid_out<K: Kind>(
    heap: Global,
    runs: &[Priced],
    marks: u64,
) -> Result<Vec<Asked<K>>, Fault> {
    let mut asked = Vec::new(heap);
    ask_runs(&mut asked, runs, 0)?;
    ask_marks(&mut asked, marks)?;
    Ok(asked)
}

// The record of a sequence, all of whose calls are taken.
pub fn recorded<K: Kind>(
    heap: Global,
    junctions: u64,
    asked: &[Asked<K>],
) -> Result<Record<K>, Fault> {
    let mut record = Record::new(heap, junctions, asked.len());
    for one in asked {
        if let Some(Said::Refused(_)) = take(&mut record, one.call)? {
            return Err(Fault::Wrong(Wrong::ACallThatIsTaken));
        }
    }
    Ok(record)
}
