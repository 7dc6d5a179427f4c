// A sequence of calls, tried with every queue and every estimator.
use crate::fault::Fault;
use district::district::Memory;
use estimate::{Estimator, Larger, Silent};
use farthest::Farthest;
use heap::Heap;
use labelling::{Back, Desk, Label, Way};
use network::{Cost, Run};
use oracle::record::Fails;
use plain::fails_of;
use queue::{Queue, Row};
use replay::{Call, Turn, replay};
use std::alloc::Global;

// The places for labels that are lent: seven junctions with seven outlets.
pub const LABELS: usize = 448;

// A byte that no plan writes.
pub const UNTOUCHED: u8 = 9;

// A call, with the length of the row that its answer may fill.
#[derive(Drop)]
pub struct Asked<K> {
    pub call: Call<K>,
    pub row: usize,
}

#[derive(Drop)]
pub struct Sequence<K> {
    pub junctions: u64,
    pub capacity: usize,
    // How many distances an estimator is lent.
    pub distances: usize,
    pub asked: Vec<Asked<K>>,
}

// What a sequence got: what its making said, and its turns.
#[derive(Drop)]
pub struct Outcome<K> {
    // Whether the estimator goes by the farthest outlet.
    pub far: bool,
    pub making: Result<(), Fails>,
    pub turns: Vec<Turn<K>>,
}

// Whether the making failed, and the turns.
type Tried<K> = (Result<(), Fails>, Vec<Turn<K>>);

// Rows for so many runs. (Here as in the programs, since the library takes nothing from the heap.)
pub fn run_rows<K: Cost>(heap: Global, places: usize) -> Result<Memory<K>, Fault> {
    let cost = K::zero();
    let runs = vec![in heap; Run { a: 1, b: 1, cost }; places]?;
    let open = vec![in heap; true; places]?;
    Ok(Memory { runs, open })
}

// Label rows that held something else before.
pub fn label_rows<K: Cost>(
    heap: Global,
    places: usize,
) -> Result<(Vec<Label<K>>, Vec<Way>), Fault> {
    let labels = vec![in heap; Some(K::zero()); places]?;
    let turn = 5;
    let back = Back::Fork(1);
    let ways = vec![in heap; Way { turn, back }; places]?;
    Ok((labels, ways))
}

// The turns of a sequence, not yet tried.
fn turns_of<K: Cost>(heap: Global, asked: &[Asked<K>]) -> Result<Vec<Turn<K>>, Fault> {
    let mut turns = Vec::new(heap);
    for one in asked {
        let call = one.call;
        let row = vec![in heap; UNTOUCHED; one.row]?;
        let answer = None;
        turns.push(Turn { call, answer, row })?;
    }
    Ok(turns)
}

// Tries a sequence.
fn tried<Q: Queue, E: Estimator<Cost = Q::Cost>>(
    heap: Global,
    sequence: &Sequence<Q::Cost>,
    queue: &mut Q,
    estimator: &mut E,
) -> Result<Tried<Q::Cost>, Fault> {
    let memory = run_rows(heap, sequence.capacity)?;
    let (mut labels, mut ways) = label_rows(heap, LABELS)?;
    let mut turns = turns_of(heap, &sequence.asked)?;
    let mut desk = Desk {
        labels: &mut labels,
        ways: &mut ways,
        queue,
        estimator,
    };
    let making = match replay(sequence.junctions, memory, &mut turns, &mut desk) {
        Ok(_) => Ok(()),
        Err(unmade) => Err(fails_of(unmade.why)),
    };
    Ok((making, turns))
}

fn with_row<E: Estimator>(
    heap: Global,
    sequence: &Sequence<E::Cost>,
    estimator: &mut E,
) -> Result<Tried<E::Cost>, Fault> {
    let mut waiting = vec![in heap; None; LABELS]?;
    let mut queue = Row::over(&mut waiting);
    tried(heap, sequence, &mut queue, estimator)
}

fn with_heap<E: Estimator>(
    heap: Global,
    sequence: &Sequence<E::Cost>,
    estimator: &mut E,
) -> Result<Tried<E::Cost>, Fault> {
    let mut keys = vec![in heap; E::Cost::zero(); LABELS]?;
    let mut codes = vec![in heap; 1u32; LABELS]?;
    let mut places = vec![in heap; 2u32; LABELS]?;
    let mut queue = Heap::over(&mut keys, &mut codes, &mut places);
    tried(heap, sequence, &mut queue, estimator)
}

// Tries a sequence with the row, and then with the heap.
fn with_both<E: Estimator>(
    heap: Global,
    sequence: &Sequence<E::Cost>,
    estimator: &mut E,
    far: bool,
    outcomes: &mut Vec<Outcome<E::Cost>>,
) -> Result<(), Fault> {
    let (making, turns) = with_row(heap, sequence, estimator)?;
    outcomes.push(Outcome { far, making, turns })?;
    let (making, turns) = with_heap(heap, sequence, estimator)?;
    outcomes.push(Outcome { far, making, turns })?;
    Ok(())
}

// Six ways in which a sequence is tried: an even one has the row, an odd one the heap; the first two are silent, the
// next two go by the farthest outlet, and the last two by the larger of both.
pub fn every_way<K: Cost>(heap: Global, sequence: &Sequence<K>) -> Result<Vec<Outcome<K>>, Fault> {
    let mut outcomes = Vec::new(heap);
    let mut silent = Silent::new();
    with_both(heap, sequence, &mut silent, false, &mut outcomes)?;
    let mut distances = vec![in heap; None; sequence.distances]?;
    let mut farthest = Farthest::over(&mut distances);
    with_both(heap, sequence, &mut farthest, true, &mut outcomes)?;
    let mut larger = Larger {
        first: silent,
        second: farthest,
    };
    with_both(heap, sequence, &mut larger, true, &mut outcomes)?;
    Ok(outcomes)
}
