// Tries the library on worked examples and on random districts, and holds what it says against other solvers.
#![tactic(auto)]

mod calls;
mod cases;
mod direct;
mod falsely;
mod fault;
mod judge;
mod random;
mod sequences;
mod tally;
mod ways;

use cases::all_cases;
use direct::examine_record;
use falsely::all_false;
use fault::Fault;
use judge::judge as judge_sequence;
use network::{CrossingsFirst, Money};
use oracle::kind::Kind;
use sequences::any_sequence;
use ways::every_way;

// Where the random numbers begin, for each kind of cost.
const MONEY_SEED: u64 = 1972;

const CROSSINGS_SEED: u64 = 1736;

// How many random sequences each kind of cost is tried on.
const SEQUENCES: u64 = 10_000;

// Random sequences, each tried in every way and judged; of each fifth the district at its end is examined.
fn random_trial<K: Kind>(
    rt: &HostRuntime,
    seed: u64,
    tally: &mut tally::Tally,
) -> Result<(), Fault> {
    let mut random = random::Random::new(seed);
    for i in 0..SEQUENCES {
        tally.sequence = i.saturating_add(1);
        let sequence = any_sequence::<K>(rt.alloc(), &mut random)?;
        let outcomes = every_way(rt.alloc(), &sequence)?;
        let record = judge_sequence(rt.alloc(), &sequence, &outcomes, tally)?;
        if i % 5 == 0 {
            examine_record(rt.alloc(), &record, tally)?;
        }
    }
    Ok(())
}

// Says where and what was wrong, or how many of what was tried, and hands on how it ended.
fn report(
    rt: &HostRuntime,
    name: &str,
    done: Result<(), Fault>,
    tally: &tally::Tally,
) -> Result<(), Fault> {
    if let Err(Fault::Wrong(what)) = &done {
        println!(rt;
            "{name}: wrong in sequence {}, call {}, way {}: {what}",
            tally.sequence, tally.call, tally.way
        )?;
    } else {
        println!(rt; "{name}: {tally}")?;
    }
    done
}

fn main(rt: HostRuntime) -> Result<(), Fault> {
    all_false(&rt)?;
    let mut worked = tally::Tally::default();
    let done = all_cases(rt.alloc(), &mut worked);
    report(&rt, "worked examples", done, &worked)?;
    let mut money = tally::Tally::default();
    let done = random_trial::<Money>(&rt, MONEY_SEED, &mut money);
    report(&rt, "money", done, &money)?;
    let mut crossings = tally::Tally::default();
    let done = random_trial::<CrossingsFirst>(&rt, CROSSINGS_SEED, &mut crossings);
    report(&rt, "crossings first", done, &crossings)
}
