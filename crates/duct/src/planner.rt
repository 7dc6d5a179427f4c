// A plan over memory of the program's own, by the queue and the estimator that a line chose.
ghost use Rattle.std.specs.Prelude.{◌≡◌};
ghost use Rattle.district.specs.Model.{layout_of};
ghost use Rattle.duct.specs.Scopes.{all_turns, allowed, scoped};

use district::view::View;
use estimate::{Estimator, Silent};
use labelling::{Back, Desk, Size, Way, room};
use network::Cost;
use queue::{Queue, Row};
use search::plan::plan;
use search::{NoPlan, Plan};
use std::alloc::{AllocError, Global};
use text::{EstimatorChoice, PlanWords, QueueChoice};

// A plan with its row: a byte for each run laid, 1 if it belongs to the network.
#[derive(Drop)]
pub struct Drawing<K> {
    pub plan: Plan<K>,
    pub row: Vec<u8>,
}

// How many labels a search needs, and how many turns it may take.
#[derive(Clone, Copy)]
struct Scope {
    labels: usize,
    turns: u32,
}

// So many turns settle every label but those of no outlet.
fn all_turns(size: Size) -> u32
    ensures { result ≡ all_turns size }
{
    size.junctions as u32 * size.sets.saturating_sub(1) as u32
}

// The turns that a line allows, or all of them.
fn turns_of(limit: Option<u64>, all: u32) -> u32
    ensures { result ≡ allowed limit all }
{
    match limit {
        None => all,
        Some(n) => n.min(u32::MAX as u64) as u32,
    }
}

// A view with no outlet needs nothing.
fn scope_of<K: Cost>(view: &View<'_, K>, limit: Option<u64>) -> Scope
    ensures { result ≡ scoped (layout_of view.now) limit }
{
    match room(view, usize::MAX, usize::MAX) {
        Ok(size) => Scope {
            labels: size.codes(),
            turns: turns_of(limit, all_turns(size)),
        },
        Err(_) => Scope {
            labels: 0,
            turns: turns_of(limit, 0),
        },
    }
}

fn plan_with<Q: Queue, E: Estimator<Cost = Q::Cost>>(
    heap: Global,
    view: &View<'_, Q::Cost>,
    scope: Scope,
    queue: &mut Q,
    estimator: &mut E,
) -> Result<Result<Drawing<Q::Cost>, NoPlan<Q::Cost>>, AllocError> {
    let unsettled = Way {
        turn: 0,
        back: Back::Start,
    };
    let mut labels = vec![in heap; None; scope.labels]?;
    let mut ways = vec![in heap; unsettled; scope.labels]?;
    let mut row = vec![in heap; 0u8; view.runs.len()]?;
    let mut desk = Desk {
        labels: &mut labels,
        ways: &mut ways,
        queue,
        estimator,
    };
    match plan(view, scope.turns, &mut desk, &mut row) {
        Ok(plan) => Ok(Ok(Drawing { plan, row })),
        Err(why) => Ok(Err(why)),
    }
}

fn plan_queued<Q: Queue>(
    heap: Global,
    view: &View<'_, Q::Cost>,
    choice: EstimatorChoice,
    scope: Scope,
    queue: &mut Q,
) -> Result<Result<Drawing<Q::Cost>, NoPlan<Q::Cost>>, AllocError> {
    match choice {
        EstimatorChoice::Silent => plan_with(heap, view, scope, queue, &mut Silent::new()),
    }
}

// A cheapest network of a view, as a line asks for it, or why there is none. Only memory ends the program, and `?` passes it on alone.
pub fn plan_view<K: Cost>(
    heap: Global,
    view: &View<'_, K>,
    said: PlanWords,
) -> Result<Result<Drawing<K>, NoPlan<K>>, AllocError> {
    let scope = scope_of(view, said.limit);
    let choice = said.estimator.unwrap_or(EstimatorChoice::Silent);
    match said.queue.unwrap_or(QueueChoice::Row) {
        QueueChoice::Row => {
            let mut places = vec![in heap; None; scope.labels]?;
            plan_queued(heap, view, choice, scope, &mut Row::over(&mut places))
        }
    }
}
