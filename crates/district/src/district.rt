// A district over the memory that its caller brings. Its calls stand in `calls` and `changes`.
pub mod calls;
pub mod changes;

ghost use Rattle.std.specs.Prelude.{ℕ, ◌<◌, ◌≤◌, min, length, take, vec_len};
ghost use Rattle.std.specs.List.Sorted.{IsStrictlyIncreasing};
ghost use Rattle.network.specs.Layouts.{Priced};
ghost use Rattle.network.specs.declared.run.Run.{Run};
ghost use Rattle.district.specs.Bounds.{EndsBelow, AllBelow};

use arrayvec::ArrayVec;
use network::{Cost, Junction, Refusal, Run, RunNumber};

// The most outlets that a district may have.
pub const MOST_OUTLETS: usize = 12;

#[derive(Drop)]
pub struct District<K: Cost> {
    junctions: Junction,
    laid: RunNumber,
    // Two rows, as they were brought: a search can be lent other marks beside the same runs, and the shorter row is the capacity.
    // They are the caller's memory and go back at full length, so a count says how many are runs.
    // The run records: the first `laid` are the runs.
    runs: Vec<Run<K>>,
    // The open marks: run i is open if the i-th says so.
    open: Vec<bool>,
    // The marked junctions, by rising number.
    outlets: ArrayVec<Junction, MOST_OUTLETS>,
    ghost many: { junctions ≤ 1024 },
    ghost few: { min (vec_len runs) (vec_len «open») ≤ 4096 },
    ghost room: { laid ≤ vec_len runs },
    ghost marks: { laid ≤ vec_len «open» },
    ghost ends: { EndsBelow junctions (take laid runs.items) },
    ghost priced: { Priced K.Cost.kind (take laid runs.items) },
    ghost twelve: { length outlets.items ≤ 12 },
    ghost rising: { IsStrictlyIncreasing outlets.items },
    ghost inside: { AllBelow junctions outlets.items },
}

// The two rows that a district is made of.
#[derive(Drop)]
pub struct Memory<K> {
    pub runs: Vec<Run<K>>,
    pub open: Vec<bool>,
}

// A making that was refused, with the memory as it was brought.
#[derive(Drop)]
pub struct Unmade<K> {
    pub why: Refusal,
    pub memory: Memory<K>,
}
