// The calls of a district, tried with a queue and an estimator over rows of memory.
ghost use Rattle.std.specs.Prelude.{◌≡◌, length, IfOk};
ghost use Rattle.district.specs.Model.{room_of};
ghost use Rattle.replay.specs.Calls.{offered};
ghost use Rattle.sheets.specs.Sheets.{Tried, TriedBy, desk_for, makes_of, queue_room};

use commands::{EstimatorChoice, QueueChoice};
use district::district::Memory;
use estimate::{Estimator, Larger, Silent};
use farthest::Farthest;
use heap::Heap;
use labelling::{Back, Desk, Way};
use network::{Cost, Refusal, Run};
use queue::{Queue, Row};
use replay::{Turn, replay};
use requests::Tools;
use std::alloc::{AllocError, Global};

// For how many labels and distances the plans have places.
#[derive(Clone, Copy)]
pub struct Room {
    pub labels: usize,
    pub distances: usize,
}

// Tries the turns with what lies on this desk.
fn try_both<Q: Queue, E: Estimator<Cost = Q::Cost>>(
    junctions: u64,
    memory: Memory<Q::Cost>,
    turns: &mut [Turn<Q::Cost>],
    desk: &mut Desk<'_, Q, E>,
) -> Result<(), Refusal>
    ensures { TriedBy Q.Cost.Cost.kind E.makes (offered Q.waiting E.within desk.old) junctions (room_of memory) turns.old turns.new result }
{
    match replay(junctions, memory, turns, desk) {
        Ok(_) => Ok(()),
        Err(unmade) => Err(unmade.why),
    }
}

// Tries the turns with this queue, and with the estimator that is chosen. Memory and the making fail apart: the refusal of a making is
// what its lines get, and only memory ends the program.
fn try_queue<Q: Queue>(
    heap: Global,
    junctions: u64,
    memory: Memory<Q::Cost>,
    turns: &mut [Turn<Q::Cost>],
    room: Room,
    queue: &mut Q,
    estimator: EstimatorChoice,
) -> Result<Result<(), Refusal>, AllocError>
    ensures { IfOk result (λ made. TriedBy Q.Cost.Cost.kind (makes_of Q.Cost.Cost.kind estimator) (desk_for room.labels room.labels (length (Q.waiting queue.old)) estimator room.distances) junctions (room_of memory) turns.old turns.new made) }
{
    let unsettled = Way {
        turn: 0,
        back: Back::Start,
    };
    let mut labels = vec![in heap; None; room.labels]?;
    let mut ways = vec![in heap; unsettled; room.labels]?;
    let mut distances = vec![in heap; None; room.distances]?;
    let labels = labels.as_mut_slice();
    let ways = ways.as_mut_slice();
    // Each arm lays its own desk, since the estimators are of three types.
    match estimator {
        EstimatorChoice::Silent => {
            let estimator = Silent::new();
            let mut desk = Desk {
                labels,
                ways,
                queue,
                estimator,
            };
            Ok(try_both(junctions, memory, turns, &mut desk))
        }
        EstimatorChoice::Farthest => {
            let estimator = Farthest::over(&mut distances);
            let mut desk = Desk {
                labels,
                ways,
                queue,
                estimator,
            };
            Ok(try_both(junctions, memory, turns, &mut desk))
        }
        EstimatorChoice::Larger => {
            let estimator = Larger {
                first: Silent::new(),
                second: Farthest::over(&mut distances),
            };
            let mut desk = Desk {
                labels,
                ways,
                queue,
                estimator,
            };
            Ok(try_both(junctions, memory, turns, &mut desk))
        }
    }
}

// Tries the turns with the queue and the estimator that are chosen.
fn try_tools<K: Cost>(
    heap: Global,
    junctions: u64,
    memory: Memory<K>,
    turns: &mut [Turn<K>],
    room: Room,
    tools: Tools,
) -> Result<Result<(), Refusal>, AllocError>
    ensures { IfOk result (λ made. Tried K.Cost.kind tools room.labels room.distances junctions (room_of memory) turns.old turns.new made) }
{
    let estimator = tools.estimator;
    match tools.queue {
        QueueChoice::Row => {
            let mut waiting = vec![in heap; None; room.labels]?;
            let mut queue = Row::over(&mut waiting);
            try_queue(heap, junctions, memory, turns, room, &mut queue, estimator)
        }
        QueueChoice::Heap => {
            let mut keys = vec![in heap; K::zero(); room.labels]?;
            let mut codes = vec![in heap; 0u32; room.labels]?;
            let mut places = vec![in heap; 0u32; room.labels]?;
            let mut queue = Heap::over(&mut keys, &mut codes, &mut places);
            try_queue(heap, junctions, memory, turns, room, &mut queue, estimator)
        }
    }
}

// Makes a district over so many places for runs, and tries the turns on it.
// The parameters stay apart: the clauses tell of the turns before and after, and of nothing else twice.
pub fn try_turns<K: Cost>(
    heap: Global,
    junctions: u64,
    places: usize,
    turns: &mut [Turn<K>],
    room: Room,
    tools: Tools,
) -> Result<Result<(), Refusal>, AllocError>
    ensures { IfOk result (λ made. Tried K.Cost.kind tools room.labels room.distances junctions places turns.old turns.new made) }
{
    let run = Run {
        a: 0,
        b: 0,
        cost: K::zero(),
    };
    let memory = Memory {
        runs: vec![in heap; run; places]?,
        open: vec![in heap; false; places]?,
    };
    try_tools(heap, junctions, memory, turns, room, tools)
}
