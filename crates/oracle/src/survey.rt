// Distances, and the recurrence of Dreyfus and Wagner over them.
ghost use Rattle.std.specs.Prelude.{◌≡◌, ◌+◌, ◌-◌, ◌*◌, ◌^◌, ◌<◌, slice_index_or};

use crate::costs::{added, bit, has, holds, lesser};
use crate::kind::Kind;
use crate::members::members;
use crate::record::{Laid, Record};
use crate::table::{Table, cell};
use network::Cost;
use std::alloc::{AllocError, Global};

// What a record's outlets and open runs come to.
#[derive(Drop)]
pub struct Survey<K> {
    pub junctions: usize,
    // By rising number; the first is the root.
    pub outlets: Vec<usize>,
    pub sets: usize,
    pub distances: Table<K>,
}

// Each junction at zero from itself, and the ends of an open run at its cost.
fn lay_distances<K: Cost>(distances: &mut Table<K>, runs: &[Laid<K>]) {
    for v in 0..distances.width {
        distances.lower(v, v, Some(K::zero()));
    }
    for run in runs.iter().filter(|run| run.open) {
        let (a, b) = run.ends();
        distances.lower(a, b, Some(run.cost));
        distances.lower(b, a, Some(run.cost));
    }
}

// Shortens every distance by way of `by`.
fn shorten<K: Cost>(distances: &mut Table<K>, by: usize) {
    for v in 0..distances.width {
        for w in 0..distances.width {
            let over = added(distances.at(v, by), distances.at(by, w));
            distances.lower(v, w, over);
        }
    }
}

// The least cost of coming from each junction to each other, along open runs.
fn distances_of<K: Cost>(
    heap: Global,
    junctions: usize,
    runs: &[Laid<K>],
) -> Result<Table<K>, AllocError> {
    let mut distances = Table::filled(heap, junctions, junctions, None)?;
    lay_distances(&mut distances, runs);
    for by in 0..junctions {
        shorten(&mut distances, by);
    }
    Ok(distances)
}

pub fn surveyed<K: Kind>(heap: Global, record: &Record<K>) -> Result<Survey<K>, AllocError> {
    let junctions = record.junctions as usize;
    Ok(Survey {
        junctions,
        outlets: members(record.outlets).collect(heap)?,
        sets: record.sets(),
        distances: distances_of(heap, junctions, &record.runs)?,
    })
}

impl<K: Cost> Survey<K> {
    pub fn distance(&self, v: usize, w: usize) -> Option<K> {
        self.distances.at(v, w)
    }

    // The first outlet, or junction 0 where there is none.
    pub fn root(&self) -> usize
        ensures { result ≡ slice_index_or self.now.outlets.items 0 0 }
    {
        self.outlets.first().copied().unwrap_or(0)
    }

    // The set of all outlets but the root.
    pub fn all(&self) -> usize
        ensures { result ≡ self.now.sets - 1 }
    {
        self.sets.saturating_sub(1)
    }

    // The code of a label.
    pub fn code(&self, v: usize, set: usize) -> usize
        ensures { v * self.now.sets + set < 2 ^ 64 → result ≡ v * self.now.sets + set }
    {
        cell(v, self.sets, set)
    }

    // The outlet at `place`: the root is at none.
    pub fn outlet(&self, place: usize) -> Option<usize> {
        self.outlets.get(place.saturating_add(1)).copied()
    }

    // The largest distance from v to an outlet that `set` lacks and that can be reached, or zero.
    pub fn farthest(&self, v: usize, set: usize) -> K {
        self.outlets
            .iter()
            .enumerate()
            .filter(|(i, _)| *i == 0 || !holds(set, *i - 1))
            .filter_map(|(_, outlet)| self.distance(v, *outlet))
            .fold(
                K::zero(),
                |most, far| if most.is_below(far) { far } else { most },
            )
    }

    // The junctions of v, w and the outlets of `set`, as a set of junctions.
    pub fn mask(&self, v: usize, w: usize, set: usize) -> usize {
        members(set)
            .filter_map(|place| self.outlet(place))
            .fold(bit(v) | bit(w), |mask, outlet| mask | bit(outlet))
    }

    // What `set` costs at v where nothing but v joins two parts of it: zero at the outlet of a set of one.
    fn meeting(&self, table: &Table<K>, v: usize, set: usize) -> Option<K> {
        let alone = members(set).any(|place| set == bit(place) && self.outlet(place) == Some(v));
        (1..set)
            .filter(|part| has(set, *part))
            .map(|part| added(table.at(v, part), table.at(v, set ^ part)))
            .fold(alone.then_some(K::zero()), lesser)
    }

    // The recurrence for one set, where `table` has it for all parts of the set.
    fn fill(&self, table: &mut Table<K>, set: usize) {
        for by in 0..self.junctions {
            let met = self.meeting(table, by, set);
            for v in 0..self.junctions {
                table.lower(v, set, added(self.distance(v, by), met));
            }
        }
    }

    // The least cost of joining v with the outlets of each set that is not empty, at v and the set.
    pub fn table(&self, heap: Global) -> Result<Table<K>, AllocError> {
        let mut table = Table::filled(heap, self.junctions, self.sets, None)?;
        for set in 1..self.sets {
            self.fill(&mut table, set);
        }
        Ok(table)
    }
}
