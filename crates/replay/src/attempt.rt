// One call, tried on a district.
ghost use Rattle.std.specs.Prelude.{◌≡◌, if◌then◌else◌, Ok, Err, nat_le};
ghost use Rattle.network.specs.declared.refusal.Refusal.TheVariants.{EstimatorFit};
ghost use Rattle.network.specs.Layouts.{Priced};
ghost use Rattle.district.specs.Model.{layout_of, model_of};
ghost use Rattle.labelling.specs.Questions.{room_answer};
ghost use Rattle.labelling.specs.Starts.{size_of};
ghost use Rattle.search.specs.Desks.{Stands};
ghost use Rattle.search.specs.Planning.{then_ask};
ghost use Rattle.replay.specs.Calls.{allowed, after, offered};
ghost use Rattle.replay.specs.Sequence.{Asked, Tried};

use crate::turn::{Allowance, Call, Reply};
use district::district::District;
use district::view::View;
use estimate::Estimator;
use labelling::{Desk, Size, room};
use network::{Cost, Refusal};
use queue::Queue;
use search::plan::plan;
use search::{NoPlan, Plan};

// The questions that an allowance can answer otherwise than what is lent: 13, 14, 15 and 16.
fn ask_within<K: Cost>(
    view: &View<'_, K>,
    places: usize,
    codes: usize,
    junctions: usize,
) -> Result<Size, Refusal>
    ensures { result ≡ then_ask (room_answer (layout_of view.now) places codes) (if nat_le (layout_of view.now).junctions junctions then Ok (size_of (layout_of view.now)) else Err EstimatorFit) }
{
    let size = room(view, places, codes)?;
    if view.junctions as usize <= junctions {
        Ok(size)
    } else {
        Err(Refusal::EstimatorFit)
    }
}

// A plan within its allowance.
fn try_plan<Q: Queue, E: Estimator<Cost = Q::Cost>>(
    view: &View<'_, Q::Cost>,
    allowance: Allowance,
    desk: &mut Desk<'_, Q, E>,
    row: &mut [u8],
) -> Result<Plan<Q::Cost>, NoPlan<Q::Cost>>
    requires { Priced Q.Cost.Cost.kind (layout_of view.now).runs }
    ensures asks { Asked Q.Cost.Cost.kind E.makes (allowed (offered Q.waiting E.within desk.old) allowance) (layout_of view.now) allowance.limit row.old row.new result }
    ensures stands { Stands Q.Queue.lender Q.waiting E.Estimator.lender E.within desk.old desk.new }
{
    let places = desk.labels.len().min(desk.ways.len()).min(allowance.labels);
    let codes = desk.queue.capacity().min(allowance.codes);
    ask_within(view, places, codes, allowance.junctions)?;
    plan(view, allowance.limit, desk, row)
}

// A call, tried on the district. A plan writes into the row.
pub(crate) fn try_call<Q: Queue, E: Estimator<Cost = Q::Cost>>(
    district: &mut District<Q::Cost>,
    call: Call<Q::Cost>,
    desk: &mut Desk<'_, Q, E>,
    row: &mut [u8],
) -> Result<Reply<Q::Cost>, NoPlan<Q::Cost>>
    ensures writes { model_of district.new ≡ after Q.Cost.Cost.kind (model_of district.old) call }
    ensures answers { Tried Q.Cost.Cost.kind E.makes (offered Q.waiting E.within desk.old) (model_of district.old) row.old row.new result call }
    ensures stands { Stands Q.Queue.lender Q.waiting E.Estimator.lender E.within desk.old desk.new }
{
    match call {
        Call::Lay { a, b, cost } => Ok(Reply::Laid(district.lay(a, b, cost)?)),
        Call::Reprice { run, cost } => {
            district.reprice(run, cost)?;
            Ok(Reply::Done)
        }
        Call::Close { run } => {
            district.close(run)?;
            Ok(Reply::Done)
        }
        Call::Open { run } => {
            district.open(run)?;
            Ok(Reply::Done)
        }
        Call::Mark { junction } => {
            district.mark(junction)?;
            Ok(Reply::Done)
        }
        Call::Unmark { junction } => {
            district.unmark(junction)?;
            Ok(Reply::Done)
        }
        Call::Plan(allowance) => {
            let view = district.view();
            let plan = try_plan(&view, allowance, desk, row)?;
            Ok(Reply::Planned(plan))
        }
    }
}
