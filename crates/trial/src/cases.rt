// The worked examples, and the numbers at the edges of the questions.
ghost use Rattle.std.specs.Prelude.{◌≡◌};

use crate::calls::{
    Priced, RING, SEVEN, STAR, ask, ask_marks, ask_runs, laid_out, plan_in, plan_within,
};
use crate::direct::examine_record;
use crate::fault::{Fault, Wrong, hold};
use crate::judge::judge;
use crate::tally::Tally;
use crate::ways::{Asked, Outcome, Sequence, every_way};
use network::{CrossingsFirst, Money};
use oracle::kind::Kind;
use oracle::record::Fails;
use oracle::said::{Figure, Said};
use plain::read_answer;
use replay::Call;
use std::alloc::Global;

// A call by its number, and what it must say with silence and with the bounds of the farthest outlet.
#[derive(Clone, Copy)]
struct Case {
    call: usize,
    silent: Said,
    far: Said,
}

// A call that must say the same with all bounds.
fn always(call: usize, said: Said) -> Case
    ensures { result ≡ record { call = call; silent = said; far = said } }
{
    Case {
        call,
        silent: said,
        far: said,
    }
}

// Money.
fn euros(money: u64) -> Figure
    ensures { result ≡ record { crossings = 0; money = money } }
{
    Figure {
        crossings: 0,
        money,
    }
}

// A plan that is found.
fn found(turns: u32, money: u64, runs: usize) -> Said
    ensures { result ≡ Said.Planned turns (record { crossings = 0; money = money }) runs }
{
    Said::Planned(turns, euros(money), runs)
}

// A plan that is stopped with a floor.
fn stopped(turns: u32, floor: u64) -> Said
    ensures { result ≡ Said.Stopped turns (record { crossings = 0; money = floor }) }
{
    Said::Stopped(turns, euros(floor))
}

// What one way said at a call is what it must say.
fn judge_case<K: Kind>(outcome: &Outcome<K>, case: Case) -> Result<(), Fault> {
    let turn = outcome.turns.get(case.call).ok_or(Wrong::ATurnIsMissing)?;
    let said = read_answer(&turn.answer, &turn.row);
    let must = if outcome.far { case.far } else { case.silent };
    hold(said == must, Wrong::AWorkedExample)
}

// Tries a sequence in every way and judges it, and holds it to these cases; the record is examined too.
fn scripted<K: Kind>(
    heap: Global,
    sequence: &Sequence<K>,
    cases: &[Case],
    tally: &mut Tally,
) -> Result<(), Fault> {
    tally.sequence = tally.sequence.saturating_add(1);
    let outcomes = every_way(heap, sequence)?;
    let record = judge(heap, sequence, &outcomes, tally)?;
    for case in cases {
        tally.call = case.call;
        for (way, outcome) in outcomes.iter().enumerate() {
            tally.way = way;
            judge_case(outcome, *case)?;
        }
    }
    examine_record(heap, &record, tally)
}

// The star: no outlet, one, three at several limits, and two runs closed.
fn star(heap: Global, tally: &mut Tally) -> Result<(), Fault> {
    let mut asked = laid_out::<Money>(heap, &STAR, 0)?;
    ask(&mut asked, plan_within(12))?;
    ask(&mut asked, Call::Mark { junction: 0 })?;
    ask(&mut asked, plan_within(0))?;
    ask(&mut asked, Call::Mark { junction: 1 })?;
    ask(&mut asked, Call::Mark { junction: 2 })?;
    ask(&mut asked, plan_within(12))?;
    ask(&mut asked, plan_within(11))?;
    ask(&mut asked, plan_within(4))?;
    ask(&mut asked, plan_within(0))?;
    ask(&mut asked, Call::Close { run: 0 })?;
    ask(&mut asked, Call::Close { run: 3 })?;
    ask(&mut asked, plan_within(9))?;
    let best = found(6, 6, 7);
    let cases = [
        always(5, Said::Refused(Fails::NoOutlet)),
        always(7, found(0, 0, 0)),
        Case {
            call: 10,
            silent: found(12, 6, 7),
            far: best,
        },
        Case {
            call: 11,
            silent: stopped(11, 6),
            far: best,
        },
        Case {
            call: 12,
            silent: stopped(4, 3),
            far: stopped(4, 6),
        },
        Case {
            call: 13,
            silent: stopped(0, 0),
            far: stopped(0, 4),
        },
        always(16, Said::Unjoined(9)),
    ];
    let sequence = Sequence {
        junctions: 4,
        capacity: 5,
        distances: 48,
        asked,
    };
    scripted(heap, &sequence, &cases, tally)
}

// The star with too few places for labels, codes or distances, or too short a row.
fn star_in(
    heap: Global,
    distances: usize,
    row: usize,
    cases: &[Case],
    tally: &mut Tally,
) -> Result<(), Fault> {
    let mut asked = laid_out::<Money>(heap, &STAR, 3)?;
    ask(&mut asked, plan_in(15, usize::MAX))?;
    ask(&mut asked, plan_in(usize::MAX, 15))?;
    let call = plan_in(16, 16);
    asked.push(Asked { call, row })?;
    let sequence = Sequence {
        junctions: 4,
        capacity: 5,
        distances,
        asked,
    };
    scripted(heap, &sequence, cases, tally)
}

// The star at the edges of questions 14 to 17.
fn star_rooms(heap: Global, tally: &mut Tally) -> Result<(), Fault> {
    let labels = always(8, Said::Refused(Fails::LabelMemory));
    let codes = always(9, Said::Refused(Fails::QueueCapacity));
    let best = Case {
        call: 10,
        silent: found(12, 6, 7),
        far: found(6, 6, 7),
    };
    let unfit = Case {
        call: 10,
        silent: found(12, 6, 7),
        far: Said::Refused(Fails::EstimatorFit),
    };
    let short = always(10, Said::Refused(Fails::AnswerRow));
    star_in(heap, 48, 5, &[labels, codes, best], tally)?;
    star_in(heap, 47, 5, &[unfit], tally)?;
    star_in(heap, 48, 4, &[short], tally)
}

// The ring, before and after one run is repriced.
fn ring(heap: Global, tally: &mut Tally) -> Result<(), Fault> {
    let mut asked = laid_out::<Money>(heap, &RING, 2)?;
    ask(&mut asked, plan_within(4))?;
    let cost = Money { amount: 1 };
    ask(&mut asked, Call::Reprice { run: 1, cost })?;
    ask(&mut asked, plan_within(4))?;
    let cases = [
        Case {
            call: 6,
            silent: found(4, 6, 12),
            far: found(3, 6, 12),
        },
        always(8, found(3, 2, 3)),
    ];
    let sequence = Sequence {
        junctions: 4,
        capacity: 4,
        distances: 48,
        asked,
    };
    scripted(heap, &sequence, &cases, tally)
}

// The star with a crossing on each of the runs to 3: they are not dug.
fn crossed_star(heap: Global, tally: &mut Tally) -> Result<(), Fault> {
    let mut asked = Vec::new(heap);
    ask_runs::<CrossingsFirst>(&mut asked, &STAR, 3)?;
    ask_marks(&mut asked, 3)?;
    ask(&mut asked, plan_within(12))?;
    let best = Case {
        call: 8,
        silent: found(9, 8, 24),
        far: found(5, 8, 24),
    };
    let sequence = Sequence {
        junctions: 4,
        capacity: 5,
        distances: 48,
        asked,
    };
    scripted(heap, &sequence, &[best], tally)
}

// Seven junctions, four of them outlets, which five of money join.
fn seven(heap: Global, tally: &mut Tally) -> Result<(), Fault> {
    let mut asked = laid_out::<Money>(heap, &SEVEN, 4)?;
    let call = plan_within(49);
    asked.push(Asked { call, row: 21 })?;
    let sequence = Sequence {
        junctions: 7,
        capacity: 21,
        distances: 84,
        asked,
    };
    scripted(heap, &sequence, &[], tally)?;
    for outcome in every_way(heap, &sequence)?.iter() {
        if let Some(turn) = outcome.turns.last() {
            let said = read_answer(&turn.answer, &turn.row);
            hold(said.cost() == Some(euros(5)), Wrong::TheSevenJunctions)?;
        }
    }
    Ok(())
}

// Costs and marks at the edges of their questions.
fn edges(heap: Global, tally: &mut Tally) -> Result<(), Fault> {
    let runs = [
        Priced(0, 1, 0),
        Priced(0, 1, 1_000_000),
        Priced(0, 1, 1_000_001),
        Priced(0, 13, 1),
        Priced(2, 2, 1),
    ];
    let asked = laid_out::<Money>(heap, &runs, 13)?;
    let cases = [
        always(0, Said::Refused(Fails::NoCost)),
        always(1, Said::Laid(0)),
        always(2, Said::Refused(Fails::TooBulky)),
        always(3, Said::Refused(Fails::NotAJunction)),
        always(4, Said::Refused(Fails::SameEnds)),
        always(16, Said::Done),
        always(17, Said::Refused(Fails::OutletsFull)),
    ];
    let sequence = Sequence {
        junctions: 13,
        capacity: 2,
        distances: 0,
        asked,
    };
    scripted(heap, &sequence, &cases, tally)
}

// The making of a district of so many junctions and places for runs answers this in every way.
fn edge_making(
    heap: Global,
    junctions: u64,
    capacity: usize,
    making: Result<(), Fails>,
    tally: &mut Tally,
) -> Result<(), Fault> {
    let asked: Vec<Asked<Money>> = Vec::new(heap);
    let sequence = Sequence {
        junctions,
        capacity,
        distances: 0,
        asked,
    };
    for outcome in every_way(heap, &sequence)?.iter() {
        hold(outcome.making == making, Wrong::AMakingAtTheEdge)?;
    }
    scripted(heap, &sequence, &[], tally)
}

pub fn all_cases(heap: Global, tally: &mut Tally) -> Result<(), Fault> {
    star(heap, tally)?;
    star_rooms(heap, tally)?;
    ring(heap, tally)?;
    crossed_star(heap, tally)?;
    seven(heap, tally)?;
    edges(heap, tally)?;
    edge_making(heap, 1024, 4096, Ok(()), tally)?;
    edge_making(heap, 1025, 1, Err(Fails::JunctionCount), tally)?;
    edge_making(heap, 0, 1, Err(Fails::JunctionCount), tally)?;
    edge_making(heap, 1, 4097, Err(Fails::RunCapacity), tally)
}
