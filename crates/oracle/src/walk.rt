// A plain labelling of the trial's own, with bounds of any kind, right or wrong.
ghost use Rattle.std.specs.Prelude.{◌≡◌, ◌*◌, ◌≤◌, ◌&&◌, ◌||◌, is_some, IfOk, vec_len};

use crate::costs::{added, bit, lesser};
use crate::record::Laid;
use crate::survey::Survey;
use crate::table::Table;
use network::Cost;
use std::alloc::{AllocError, Global};

// What a label costs, if it is reached, and whether it is settled.
#[derive(Clone, Copy)]
pub struct Reached<K> {
    pub cost: Option<K>,
    pub settled: bool,
}

// The labels, by code.
#[derive(Drop)]
struct Walk<'a, K> {
    survey: &'a Survey<K>,
    runs: &'a [Laid<K>],
    labels: Vec<Reached<K>>,
}

impl<K: Cost> Walk<'_, K> {
    // A label, unreached where there is none of this code.
    fn label(&self, code: usize) -> Reached<K> {
        self.labels.get(code).copied().unwrap_or(Reached {
            cost: None,
            settled: false,
        })
    }

    // A candidate for a label.
    fn offer(&mut self, v: usize, set: usize, cost: Option<K>)
        ensures { vec_len self.new.labels ≡ vec_len self.old.labels }
    {
        if let Some(label) = self.labels.get_mut(self.survey.code(v, set)) {
            if !label.settled {
                label.cost = lesser(label.cost, cost);
            }
        }
    }

    // The waiting label of least cost and bound together, the first among equals.
    fn least(&self, bounds: &Table<K>) -> Option<usize> {
        self.labels
            .iter()
            .zip(bounds.costs.iter())
            .enumerate()
            .filter(|(_, (label, _))| !label.settled)
            .filter_map(|(code, (label, bound))| {
                added(label.cost, *bound).map(|key| (key, code))
            })
            .reduce(|best, next| if next.0.is_below(best.0) { next } else { best })
            .map(|(_, code)| code)
    }

    // The candidates over the open runs at v.
    fn along(&mut self, v: usize, set: usize) {
        let cost = self.label(self.survey.code(v, set)).cost;
        for run in self.runs.iter().filter(|run| run.open) {
            let over = added(cost, Some(run.cost));
            let (a, b) = run.ends();
            if a == v {
                self.offer(b, set, over);
            }
            if b == v {
                self.offer(a, set, over);
            }
        }
    }

    // The candidates by a fork at v.
    fn across(&mut self, v: usize, set: usize) {
        let cost = self.label(self.survey.code(v, set)).cost;
        for other in 1..self.survey.sets {
            let label = self.label(self.survey.code(v, other));
            if set & other == 0 && label.settled {
                self.offer(v, set | other, added(cost, label.cost));
            }
        }
    }

    // Settles a label and offers what it leads to.
    fn settle(&mut self, code: usize) {
        if let Some(label) = self.labels.get_mut(code) {
            label.settled = true;
        }
        let sets = self.survey.sets;
        if sets > 0 {
            self.along(code / sets, code % sets);
            self.across(code / sets, code % sets);
        }
    }
}

// The labels of the outlets alone, each with its own place.
fn started<'a, K: Cost>(
    heap: Global,
    survey: &'a Survey<K>,
    runs: &'a [Laid<K>],
) -> Result<Walk<'a, K>, AllocError>
    ensures { IfOk result (λ w. vec_len w.labels ≤ survey.now.junctions * survey.now.sets) }
{
    let unreached = Reached {
        cost: None,
        settled: false,
    };
    let codes = survey.junctions.saturating_mul(survey.sets);
    let labels = vec![in heap; unreached; codes]?;
    let mut walk = Walk {
        survey,
        runs,
        labels,
    };
    for (place, outlet) in survey.outlets.iter().skip(1).enumerate() {
        walk.offer(*outlet, bit(place), Some(K::zero()));
    }
    Ok(walk)
}

// Where a walk ends.
pub trait Until<K> {
    // Whether it ends where the root's label with all others is this.
    fn ends(&self, goal: Reached<K>) -> bool;
}

// Right is where that label is settled; where it is first reached is hasty, and wrong.
#[derive(Clone, Copy)]
struct AtGoal {
    hasty: bool,
}

impl<K: Cost> Until<K> for AtGoal {
    fn ends(&self, goal: Reached<K>) -> bool
        ensures { result ≡ goal.settled || self.now.hasty && is_some goal.cost }
    {
        goal.settled || self.hasty && goal.cost.is_some()
    }
}

// What it costs to join all outlets and how many turns that took; no cost where no label waits. It goes on until `until`
// says that it ends.
pub fn walk_until<K: Cost, U: Until<K>>(
    heap: Global,
    survey: &Survey<K>,
    runs: &[Laid<K>],
    bounds: &Table<K>,
    until: &U,
) -> Result<(Option<K>, u32), AllocError>
    ensures { IfOk result (λ r. r.1 ≤ survey.now.junctions * survey.now.sets) }
{
    let mut walk = started(heap, survey, runs)?;
    let goal = survey.code(survey.root(), survey.all());
    let mut turns: u32 = 0;
    for _turn in 0..walk.labels.len() {
        let Some(code) = walk.least(bounds) else {
            return Ok((None, turns));
        };
        turns = turns.saturating_add(1);
        walk.settle(code);
        if until.ends(walk.label(goal)) {
            break;
        }
    }
    Ok((walk.label(goal).cost, turns))
}

// The same until the root's label with all others is settled. With `hasty` it ends when that is first reached, which is
// wrong.
pub fn walked<K: Cost>(
    heap: Global,
    survey: &Survey<K>,
    runs: &[Laid<K>],
    bounds: &Table<K>,
    hasty: bool,
) -> Result<(Option<K>, u32), AllocError> {
    walk_until(heap, survey, runs, bounds, &AtGoal { hasty })
}

// The bounds of the farthest outlet, by the distances of a survey, for each label.
pub fn far_bounds<K: Cost>(heap: Global, survey: &Survey<K>) -> Result<Table<K>, AllocError> {
    let mut bounds = Table::filled(heap, survey.junctions, survey.sets, None)?;
    for v in 0..survey.junctions {
        for set in 0..survey.sets {
            bounds.lower(v, set, Some(survey.farthest(v, set)));
        }
    }
    Ok(bounds)
}
