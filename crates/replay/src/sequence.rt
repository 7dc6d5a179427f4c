// The making, and then call after call.
ghost use Rattle.district.specs.Model.{model_of};
ghost use Rattle.search.specs.Desks.{Stands};
ghost use Rattle.replay.specs.Calls.{offered};
ghost use Rattle.replay.specs.Sequence.{Outcome, Replayed};

use crate::attempt::try_call;
use crate::turn::Turn;
use district::district::{District, Memory, Unmade};
use estimate::Estimator;
use labelling::Desk;
use queue::Queue;

// Tries the call of each turn on the district, in their order. The loop goes by the index: its range says at which turn it
// begins, and its invariant is refused at any but the first.
fn try_all<Q: Queue, E: Estimator<Cost = Q::Cost>>(
    district: &mut District<Q::Cost>,
    turns: &mut [Turn<Q::Cost>],
    desk: &mut Desk<'_, Q, E>,
)
    ensures replays { Replayed Q.Cost.Cost.kind E.makes (offered Q.waiting E.within desk.old) (model_of district.old) turns.old turns.new }
    ensures stands { Stands Q.Queue.lender Q.waiting E.Estimator.lender E.within desk.old desk.new }
{
    for i in 0..turns.len() {
        let turn = &mut turns[i];
        let answer = try_call(district, turn.call, desk, &mut turn.row);
        turn.note(answer);
    }
}

// Makes a district and tries the call of each turn on it, in their order. Where the making is refused nothing is tried.
// Whatever lay on the desk before does not matter. The memory is given back.
pub fn replay<Q: Queue, E: Estimator<Cost = Q::Cost>>(
    junctions: u64,
    memory: Memory<Q::Cost>,
    turns: &mut [Turn<Q::Cost>],
    desk: &mut Desk<'_, Q, E>,
) -> Result<Memory<Q::Cost>, Unmade<Q::Cost>>
    ensures replays { Outcome Q.Cost.Cost.kind E.makes (offered Q.waiting E.within desk.old) junctions memory turns.old turns.new result }
    ensures stands { Stands Q.Queue.lender Q.waiting E.Estimator.lender E.within desk.old desk.new }
{
    let mut district = District::make(junctions, memory)?;
    try_all(&mut district, turns, desk);
    Ok(district.into_memory())
}
