// Holds what a sequence got against the trial's own record and the solver that looks at every set of runs.
use crate::calls::take;
use crate::fault::{Fault, Wrong, hold};
use crate::tally::{Tally, count};
use crate::ways::{LABELS, Outcome, Sequence, UNTOUCHED};
use oracle::costs::{alike, bit, has};
use oracle::kind::Kind;
use oracle::members::members;
use oracle::record::{Fails, Record, ask};
use oracle::said::{Said, dug};
use oracle::subsets::{MOST_RUNS, cost_of, grown, least_joined};
use oracle::survey::surveyed;
use plain::read_answer;
use replay::{Allowance, Call, Turn};
use std::alloc::Global;

// What a turn is held against.
#[derive(Drop)]
struct Standard<'a, K> {
    // The district at hand.
    record: &'a Record<K>,
    // What the call must say; none where it is a plan.
    must: Option<Said>,
    // The least cost of joining all outlets, where the call is a plan.
    least: Option<K>,
}

impl<K: Kind> Standard<'_, K> {
    // The questions 13 to 17 of a plan.
    fn ask_plan(&self, allowance: Allowance, row: usize, fits: bool) -> Result<(), Fails> {
        let codes = self.record.codes();
        ask(self.record.outlets != 0, Fails::NoOutlet)?;
        ask(codes <= allowance.labels.min(LABELS), Fails::LabelMemory)?;
        ask(codes <= allowance.codes.min(LABELS), Fails::QueueCapacity)?;
        ask(fits, Fails::EstimatorFit)?;
        ask(self.record.runs.len() <= row, Fails::AnswerRow)
    }

    // The row marks open runs that join all outlets for this cost, and is left alone beyond the runs.
    fn judge_row(&self, cost: Option<K>, row: &[u8]) -> Result<(), Fault> {
        let runs = &self.record.runs;
        for (i, mark) in row.iter().enumerate() {
            if i < runs.len() {
                hold(*mark < 2, Wrong::AByteOfTheRow)?;
            } else {
                hold(*mark == UNTOUCHED, Wrong::AByteBeyondTheRuns)?;
            }
        }
        let set = dug(row);
        hold(alike(cost_of(runs, set), cost), Wrong::TheCostOfTheRuns)?;
        let outlets = self.record.outlets;
        let joined = members(outlets).any(|j| has(grown(runs, set, bit(j)), outlets));
        hold(joined, Wrong::TheRunsJoinTheOutlets)
    }

    // A plan that was found: no set of runs that joins the outlets costs less.
    fn judge_found(&self, limit: u32, turns: u32, cost: K, row: &[u8]) -> Result<(), Fault> {
        hold(alike(self.least, Some(cost)), Wrong::TheLeastCost)?;
        hold(turns <= limit, Wrong::TheCountOfAPlan)?;
        hold(
            turns as usize <= self.record.turns(),
            Wrong::TheTurnsOfAPlan,
        )?;
        self.judge_row(Some(cost), row)
    }

    // A plan that was stopped: it has taken all turns, which do not suffice, and nothing that joins is below the floor.
    fn judge_stopped(&self, limit: u32, turns: u32, floor: K) -> Result<(), Fault> {
        hold(turns == limit, Wrong::TheCountAtTheLimit)?;
        hold(
            (limit as usize) < self.record.turns(),
            Wrong::ALimitThatSuffices,
        )?;
        match self.least {
            None => Ok(()),
            Some(cost) => hold(!cost.is_below(floor), Wrong::TheFloor),
        }
    }

    // A turn that is a plan.
    fn judge_plan(
        &self,
        allowance: Allowance,
        fits: bool,
        said: Said,
        row: &[u8],
    ) -> Result<(), Fault> {
        if let Err(fails) = self.ask_plan(allowance, row.len(), fits) {
            hold(said == Said::Refused(fails), Wrong::TheRefusalOfAPlan)?;
            return hold(dug(row) == 0, Wrong::TheRowOfARefusedPlan);
        }
        let limit = allowance.limit;
        match said {
            Said::Planned(turns, cost, _) => self.judge_found(limit, turns, cost.cost(), row),
            Said::Unjoined(turns) => hold(
                turns <= limit && self.least.is_none(),
                Wrong::NoSetOfRunsJoinsTheOutlets,
            ),
            Said::Stopped(turns, floor) => self.judge_stopped(limit, turns, floor.cost()),
            _ => Err(Fault::Wrong(Wrong::APlanThatIsRefused)),
        }
    }

    // One turn in one way, where a plan's estimator fits or does not.
    fn judge_turn(&self, turn: &Turn<K>, fits: bool) -> Result<Said, Fault> {
        let said = read_answer(&turn.answer, &turn.row);
        match turn.call {
            Call::Plan(allowance) => self.judge_plan(allowance, fits, said, &turn.row)?,
            _ => hold(self.must == Some(said), Wrong::TheAnswerOfACall)?,
        }
        Ok(said)
    }

    // One turn in every way, with so many distances lent: each is right, and a row and a heap say the same.
    fn judge_turns(
        &self,
        distances: usize,
        outcomes: &[Outcome<K>],
        tally: &mut Tally,
    ) -> Result<(), Fault> {
        let room = self.record.junctions.saturating_mul(12) <= distances as u64;
        let mut before = None;
        for (way, outcome) in outcomes.iter().enumerate() {
            tally.way = way;
            let turn = outcome.turns.get(tally.call).ok_or(Wrong::ATurnIsMissing)?;
            let said = self.judge_turn(turn, room || !outcome.far)?;
            tally.tell(said);
            hold(way % 2 == 0 || before == Some(said), Wrong::BothQueues)?;
            before = Some(said);
        }
        Ok(())
    }
}

// The makings of a sequence, each with the same refusal or none.
fn judge_making<K: Kind>(
    making: Result<(), Fails>,
    outcomes: &[Outcome<K>],
    tally: &mut Tally,
) -> Result<(), Fault> {
    for outcome in outcomes {
        hold(outcome.making == making, Wrong::TheMaking)?;
        count(&mut tally.calls);
        if let Err(fails) = making {
            tally.refuse(fails);
            let untried = outcome.turns.iter().all(|turn| read_answer(&turn.answer, &turn.row)
                == Said::Untried);
            hold(untried, Wrong::ATurnOfNoDistrict)?;
        }
    }
    Ok(())
}

// The least cost of joining all outlets: by every set of runs, or by the recurrence where there are too many.
fn least_of<K: Kind>(heap: Global, record: &Record<K>) -> Result<Option<K>, Fault> {
    if record.runs.len() <= MOST_RUNS {
        return Ok(least_joined(heap, &record.runs, record.outlets)?);
    }
    let survey = surveyed(heap, record)?;
    Ok(survey.table(heap)?.at(survey.root(), survey.all()))
}

// All turns of a sequence, in every way; the record as it is at the end.
pub fn judge<K: Kind>(
    heap: Global,
    sequence: &Sequence<K>,
    outcomes: &[Outcome<K>],
    tally: &mut Tally,
) -> Result<Record<K>, Fault> {
    let mut record = Record::new(heap, sequence.junctions, sequence.capacity);
    let making = record.make();
    judge_making(making, outcomes, tally)?;
    if making.is_err() {
        return Ok(record);
    }
    for (i, asked) in sequence.asked.iter().enumerate() {
        tally.call = i;
        let must = take(&mut record, asked.call)?;
        let least = match must {
            None => least_of(heap, &record)?,
            Some(_) => None,
        };
        let standard = Standard {
            record: &record,
            must,
            least,
        };
        standard.judge_turns(sequence.distances, outcomes, tally)?;
    }
    Ok(record)
}
