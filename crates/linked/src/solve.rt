// The making, the calls, and the plan.
ghost use Rattle.std.specs.Prelude.{◌≡◌, length, MatchOption};
ghost use Rattle.network.specs.Money.{money_kind};
ghost use Rattle.district.specs.Model.{model_of, seen};
ghost use Rattle.heap.specs.Heaps.{heap_waits};
ghost use Rattle.farthest.specs.Distances.{Far};
ghost use Rattle.farthest.specs.Memories.{room_for};
ghost use Rattle.replay.specs.Calls.{offered};
ghost use Rattle.replay.specs.Sequence.{Asked};
ghost use Rattle.linked.specs.Lists.{desk_of, answer_of, Solved};

use crate::calls::{lay_all, mark_all};
use crate::kinds::Street;
use crate::unsolved::Unsolved;
use district::district::{District, Memory};
use farthest::Farthest;
use heap::Heap;
use labelling::{Back, Desk, Label, Way};
use network::{Money, Run};
use search::plan::plan;
use search::{NoPlan, Plan};
use std::alloc::Global;

// Twelve places for each of 1,024 junctions.
const DISTANCES: usize = 12_288;

// A plan on a desk with a heap and the farthest outlet.
fn plan_on(
    district: &District<Money>,
    limit: u32,
    desk: &mut Desk<'_, Heap<'_, Money>, Farthest<'_, Money>>,
    row: &mut [u8],
) -> Result<Plan<Money>, NoPlan<Money>>
    ensures { Asked money_kind (Far money_kind) (offered heap_waits room_for desk.old) (seen (model_of district.now)) limit row.old row.new result }
{
    let view = district.view();
    plan(&view, limit, desk, row)
}

// A plan with so many places for labels.
fn plan_with(
    heap: Global,
    district: &District<Money>,
    limit: u32,
    places: usize,
    row: &mut [u8],
) -> Result<Plan<Money>, Unsolved>
    ensures { MatchOption (answer_of result) (row.new ≡ row.old)
        (λ answer. Asked money_kind (Far money_kind) (desk_of places) (seen (model_of district.now)) limit row.old row.new answer) }
{
    let nothing = Money { amount: 0 };
    let unsettled = Way {
        turn: 0,
        back: Back::Start,
    };
    let mut labels = vec![in heap; None; places]?;
    let mut ways = vec![in heap; unsettled; places]?;
    let mut keys = vec![in heap; nothing; places]?;
    let mut codes = vec![in heap; 0u32; places]?;
    let mut by_code = vec![in heap; 0u32; places]?;
    let mut distances = vec![in heap; None; DISTANCES]?;
    let mut desk = Desk {
        labels: &mut labels,
        ways: &mut ways,
        queue: Heap::over(&mut keys, &mut codes, &mut by_code),
        estimator: Farthest::over(&mut distances),
    };
    let plan = plan_on(district, limit, &mut desk, row)?;
    Ok(plan)
}

// Makes a district with room for the streets, lays them, marks the outlets and plans. It takes what C gives.
pub(crate) fn solve(
    heap: Global,
    junctions: u64,
    streets: &[Street],
    outlets: &[u64],
    limit: u32,
    places: usize,
    row: &mut [u8],
) -> Result<Plan<Money>, Unsolved>
    ensures { Solved junctions streets.now outlets.now limit places row.old row.new result }
{
    let run = Run {
        a: 0,
        b: 0,
        cost: Money { amount: 0 },
    };
    let memory = Memory {
        runs: vec![in heap; run; streets.len()]?,
        open: vec![in heap; false; streets.len()]?,
    };
    let mut district = District::make(junctions, memory)?;
    lay_all(&mut district, streets);
    mark_all(&mut district, outlets);
    plan_with(heap, &district, limit, places, row)
}
