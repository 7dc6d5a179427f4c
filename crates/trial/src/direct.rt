// Plans of a district with no sequence around them: the labels, the count, the limit, and the law of the bounds.
use crate::fault::{Fault, Wrong, hold};
use crate::tally::{Tally, count};
use crate::ways::{LABELS, label_rows, run_rows};
use district::district::District;
use district::view::View;
use estimate::{Estimator, Larger, Silent};
use farthest::Farthest;
use heap::Heap;
use labelling::{Desk, Label, Way};
use network::Cost;
use oracle::costs::{added, alike, at, has};
use oracle::kind::Kind;
use oracle::members::members;
use oracle::record::Record;
use oracle::said::Said;
use oracle::subsets::{MOST_JUNCTIONS, MOST_RUNS, all_joined};
use oracle::survey::{Survey, surveyed};
use oracle::table::Table;
use oracle::walk::{far_bounds, walked};
use plain::plan_once;
use queue::{Queue, Row};
use std::alloc::Global;

// The most sets that the outlets but the root can have, with seven junctions.
const MOST_SETS: usize = 64;

// The district that a record tells of.
fn built<K: Kind>(heap: Global, record: &Record<K>) -> Result<District<K>, Fault> {
    let Ok(mut district) = District::make(record.junctions, run_rows(heap, record.runs.len())?)
    else {
        return Err(Fault::Wrong(Wrong::TheMakingOfADistrict));
    };
    for (i, run) in record.runs.iter().enumerate() {
        hold(
            district.lay(run.a, run.b, run.cost).is_ok(),
            Wrong::LayingAgain,
        )?;
        if !run.open {
            hold(district.close(i as u64).is_ok(), Wrong::ClosingAgain)?;
        }
    }
    for j in members(record.outlets) {
        hold(district.mark(j as u64).is_ok(), Wrong::MarkingAgain)?;
    }
    Ok(district)
}

// A record, and what its district's plans and bounds are held against.
#[derive(Drop)]
struct Examiner<'a, K> {
    heap: Global,
    record: &'a Record<K>,
    survey: Survey<K>,
    // The recurrence.
    table: Table<K>,
    // The least cost of joining each set of junctions, or nothing where there are too many runs.
    joined: Vec<Option<K>>,
}

impl<'a, K: Kind> Examiner<'a, K> {
    fn new(heap: Global, record: &'a Record<K>) -> Result<Examiner<'a, K>, Fault> {
        let survey = surveyed(heap, record)?;
        let table = survey.table(heap)?;
        let joined = if record.runs.len() <= MOST_RUNS {
            all_joined(heap, &record.runs)?
        } else {
            Vec::new(heap)
        };
        Ok(Examiner {
            heap,
            record,
            survey,
            table,
            joined,
        })
    }

    // Each settled label costs what the recurrence gives.
    fn judge_labels(
        &self,
        labels: &[Label<K>],
        ways: &[Way],
        tally: &mut Tally,
    ) -> Result<(), Fault> {
        for v in 0..self.survey.junctions {
            for set in 1..self.survey.sets {
                let code = self.survey.code(v, set);
                if let (Some(label), Some(way)) = (labels.get(code), ways.get(code)) {
                    if way.turn > 0 {
                        let cost = *label;
                        let same = alike(self.table.at(v, set), cost);
                        hold(cost.is_some() && same, Wrong::TheCostOfALabel)?;
                        count(&mut tally.labels);
                    }
                }
            }
        }
        Ok(())
    }

    // A plan within so many turns; its labels are held against the recurrence.
    fn planned<Q: Queue<Cost = K>, E: Estimator<Cost = K>>(
        &self,
        view: &View<'_, K>,
        limit: u32,
        queue: &mut Q,
        estimator: &mut E,
        tally: &mut Tally,
    ) -> Result<Said, Fault> {
        let (mut labels, mut ways) = label_rows(self.heap, LABELS)?;
        let mut row = vec![in self.heap; 0u8; view.runs.len()]?;
        let mut desk = Desk {
            labels: &mut labels,
            ways: &mut ways,
            queue,
            estimator,
        };
        let said = plan_once(view, limit, &mut desk, &mut row);
        self.judge_labels(&labels, &ways, tally)?;
        Ok(said)
    }

    // With as many turns as were taken a plan is the same, and with one less it is stopped, with a floor.
    fn judge_limits<Q: Queue<Cost = K>, E: Estimator<Cost = K>>(
        &self,
        view: &View<'_, K>,
        turns: u32,
        said: Said,
        queue: &mut Q,
        estimator: &mut E,
        tally: &mut Tally,
    ) -> Result<(), Fault> {
        let again = self.planned(view, turns, queue, estimator, tally)?;
        hold(again == said, Wrong::TheSamePlanAtItsOwnLimit)?;
        if turns > 0 {
            let less = self.planned(view, turns - 1, queue, estimator, tally)?;
            let Said::Stopped(taken, floor) = less else {
                return Err(Fault::Wrong(Wrong::OneTurnLess));
            };
            hold(taken == turns - 1, Wrong::OneTurnLess)?;
            if let Some(cost) = said.cost() {
                let cost: K = cost.cost();
                hold(!cost.is_below(floor.cost()), Wrong::TheFloorOfOneTurnLess)?;
            }
        }
        count(&mut tally.limits);
        Ok(())
    }

    // A plan with turns enough, beside the trial's own labelling under the same bounds.
    fn judge_plans<Q: Queue<Cost = K>, E: Estimator<Cost = K>>(
        &self,
        bounds: &Table<K>,
        queue: &mut Q,
        estimator: &mut E,
        tally: &mut Tally,
    ) -> Result<(), Fault> {
        let district = built(self.heap, self.record)?;
        let view = district.view();
        let enough = self.record.turns().min(1_000_000) as u32;
        let said = self.planned(&view, enough, queue, estimator, tally)?;
        let runs = &self.record.runs;
        let (cost, turns) = walked(self.heap, &self.survey, runs, bounds, false)?;
        hold(said.turns() == Some(turns), Wrong::TheCountOfTurns)?;
        if cost.is_none() {
            hold(said == Said::Unjoined(turns), Wrong::NoLabelWaits)?;
        } else {
            let found = said.cost().map(|cost| cost.cost());
            hold(alike(cost, found), Wrong::TheCostOfAPlan)?;
        }
        self.judge_limits(&view, turns, said, queue, estimator, tally)
    }

    // The law, at two junctions and for each two sets of which one is within the other.
    fn judge_law_at<E: Estimator<Cost = K>>(
        &self,
        estimator: &E,
        v: u16,
        w: u16,
        tally: &mut Tally,
    ) -> Result<(), Fault> {
        for whole in 0..self.survey.sets.min(MOST_SETS) {
            for part in 0..whole + 1 {
                if has(whole, part) {
                    let mask = self.survey.mask(v as usize, w as usize, whole ^ part);
                    let near = estimator.estimate(v, part as u16);
                    let far = Some(estimator.estimate(w, whole as u16));
                    if let Some(far) = added(far, at(&self.joined, mask)) {
                        hold(!far.is_below(near), Wrong::TheLawOfEstimators)?;
                        count(&mut tally.laws);
                    }
                }
            }
        }
        Ok(())
    }

    // The law everywhere, and that the bound of the root with all others is zero.
    fn judge_law<E: Estimator<Cost = K>>(
        &self,
        estimator: &E,
        tally: &mut Tally,
    ) -> Result<(), Fault> {
        let root = self.survey.root().min(MOST_JUNCTIONS) as u16;
        let all = self.survey.all().min(MOST_SETS) as u16;
        hold(
            alike(Some(estimator.estimate(root, all)), Some(K::zero())),
            Wrong::TheBoundOfTheRoot,
        )?;
        for v in 0..self.survey.junctions.min(MOST_JUNCTIONS) {
            for w in 0..self.survey.junctions.min(MOST_JUNCTIONS) {
                self.judge_law_at(estimator, v as u16, w as u16, tally)?;
            }
        }
        Ok(())
    }

    // Each bound is what it says.
    fn judge_bounds<E: Estimator<Cost = K>>(
        &self,
        estimator: &E,
        bounds: &Table<K>,
        tally: &mut Tally,
    ) -> Result<(), Fault> {
        for v in 0..self.survey.junctions.min(MOST_JUNCTIONS) {
            for set in 0..self.survey.sets.min(MOST_SETS) {
                let said = Some(estimator.estimate(v as u16, set as u16));
                hold(alike(said, bounds.at(v, set)), Wrong::ABound)?;
                count(&mut tally.bounds);
            }
        }
        Ok(())
    }

    // With a row and silence.
    fn examine_silent(&self, tally: &mut Tally) -> Result<(), Fault> {
        let zero = Some(K::zero());
        let bounds = Table::filled(self.heap, self.survey.junctions, self.survey.sets, zero)?;
        let mut waiting = vec![in self.heap; None; LABELS]?;
        let mut queue = Row::over(&mut waiting);
        let mut silent = Silent::new();
        self.judge_plans(&bounds, &mut queue, &mut silent, tally)?;
        self.judge_bounds(&silent, &bounds, tally)
    }

    // With a heap and an estimator that goes by the farthest outlet.
    fn examine_with<E: Estimator<Cost = K>>(
        &self,
        estimator: &mut E,
        tally: &mut Tally,
    ) -> Result<(), Fault> {
        let bounds = far_bounds(self.heap, &self.survey)?;
        let mut keys = vec![in self.heap; K::zero(); LABELS]?;
        let mut codes = vec![in self.heap; 1u32; LABELS]?;
        let mut places = vec![in self.heap; 2u32; LABELS]?;
        let mut queue = Heap::over(&mut keys, &mut codes, &mut places);
        self.judge_plans(&bounds, &mut queue, estimator, tally)?;
        self.judge_bounds(&*estimator, &bounds, tally)?;
        self.judge_law(&*estimator, tally)
    }

    // With the farthest outlet, and with the larger of that and silence.
    fn examine_far(&self, tally: &mut Tally) -> Result<(), Fault> {
        let mut distances = vec![in self.heap; None; MOST_JUNCTIONS * 12]?;
        let mut first = Farthest::over(&mut distances);
        self.examine_with(&mut first, tally)?;
        let second = Silent::new();
        let mut larger = Larger { first, second };
        self.examine_with(&mut larger, tally)
    }
}

// Examines a record that has two outlets or more, and not too many labels. Where it has too many runs to look at
// every set of them the law is not held against any.
pub fn examine_record<K: Kind>(
    heap: Global,
    record: &Record<K>,
    tally: &mut Tally,
) -> Result<(), Fault> {
    if record.make().is_err() || record.sets() < 2 || record.codes() > LABELS {
        return Ok(());
    }
    let examiner = Examiner::new(heap, record)?;
    examiner.examine_silent(tally)?;
    examiner.examine_far(tally)
}
