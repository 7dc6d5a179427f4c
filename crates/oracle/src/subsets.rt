// The cheapest networks by looking at every set of runs: no labels, no queue, no distances.
use crate::costs::{bit, has, holds, lesser, lower};
use crate::record::Laid;
use network::Cost;
use std::alloc::{AllocError, Global};

// The most runs and junctions that are looked at.
pub const MOST_RUNS: usize = 9;

pub const MOST_JUNCTIONS: usize = 7;

// How many sets of junctions there are.
const MASKS: usize = 1 << MOST_JUNCTIONS;

// The ends of a run, as a set of junctions.
fn ends<K: Cost>(run: &Laid<K>) -> usize {
    let (a, b) = run.ends();
    bit(a) | bit(b)
}

// The junctions of `seen`, and those that the runs of `set` add, each looked at once.
fn grown_once<K: Cost>(runs: &[Laid<K>], set: usize, seen: usize) -> usize {
    runs.iter()
        .enumerate()
        .filter(|(i, _)| holds(set, *i))
        .map(|(_, run)| ends(run))
        .fold(seen, |seen, ends| {
            if seen & ends != 0 { seen | ends } else { seen }
        })
}

// The junctions that one can come to from those of `from` along the runs of `set`.
pub fn grown<K: Cost>(runs: &[Laid<K>], set: usize, from: usize) -> usize {
    let mut seen = from;
    for _round in 0..runs.len() {
        let more = grown_once(runs, set, seen);
        if more == seen {
            break;
        }
        seen = more;
    }
    seen
}

// What the runs of `set` cost together, or none where one is closed.
pub fn cost_of<K: Cost>(runs: &[Laid<K>], set: usize) -> Option<K> {
    runs.iter()
        .enumerate()
        .filter(|(i, _)| holds(set, *i))
        .try_fold(K::zero(), |cost, (_, run)| {
            if run.open { cost.sum(run.cost) } else { None }
        })
}

// Notes the cost of a set of runs at each set of junctions that it holds together.
fn note<K: Cost>(joined: &mut [Option<K>], runs: &[Laid<K>], set: usize) {
    let cost = cost_of(runs, set);
    if cost.is_some() {
        for j in 0..MOST_JUNCTIONS {
            lower(joined, grown(runs, set, bit(j)), cost);
        }
    }
}

// At each set of junctions the least cost of a set of open runs that joins these and no others to each other.
fn exactly_joined<K: Cost>(heap: Global, runs: &[Laid<K>]) -> Result<Vec<Option<K>>, AllocError> {
    let mut joined = vec![in heap; None; MASKS]?;
    for set in 0..bit(runs.len().min(MOST_RUNS)) {
        note(&mut joined, runs, set);
    }
    Ok(joined)
}

// The least at a set of junctions that has all of `part`.
fn least_over<K: Cost>(joined: &[Option<K>], part: usize) -> Option<K> {
    joined
        .iter()
        .enumerate()
        .filter(|(whole, _)| has(*whole, part))
        .map(|(_, cost)| *cost)
        .fold(None, lesser)
}

// The least cost of a set of open runs that joins the junctions of `part`, at each part of the junctions.
pub fn all_joined<K: Cost>(heap: Global, runs: &[Laid<K>]) -> Result<Vec<Option<K>>, AllocError> {
    let joined = exactly_joined(heap, runs)?;
    (0..MASKS)
        .map(|part| least_over(&joined, part))
        .collect(heap)
}

// The same of one part.
pub fn least_joined<K: Cost>(
    heap: Global,
    runs: &[Laid<K>],
    part: usize,
) -> Result<Option<K>, AllocError> {
    let joined = exactly_joined(heap, runs)?;
    Ok(least_over(&joined, part))
}
