// Answers and plans of the library, as the oracle says them.
#![tactic(auto)]

ghost use Rattle.std.specs.Prelude.{◌≡◌};
ghost use Rattle.network.specs.Numbers.{number_of as refusal_number};
ghost use Rattle.oracle.specs.Questions.{number_of};

use district::view::View;
use estimate::Estimator;
use labelling::Desk;
use network::{Cost, Refusal};
use oracle::kind::Kind;
use oracle::record::Fails;
use oracle::said::{Figure, Said, dug};
use queue::Queue;
use replay::Reply;
use search::plan::plan;
use search::{NoPlan, Plan};

// The question of a refusal: it has the same number.
// (No `From`: this crate owns neither type, and the oracle knows nothing of the library.)
pub fn fails_of(why: Refusal) -> Fails
    ensures { number_of result ≡ refusal_number why }
{
    match why {
        Refusal::JunctionCount => Fails::JunctionCount,
        Refusal::RunCapacity => Fails::RunCapacity,
        Refusal::NotAJunction => Fails::NotAJunction,
        Refusal::SameEnds => Fails::SameEnds,
        Refusal::NoCost => Fails::NoCost,
        Refusal::TooBulky => Fails::TooBulky,
        Refusal::RunsFull => Fails::RunsFull,
        Refusal::NoRun => Fails::NoRun,
        Refusal::RunState => Fails::RunState,
        Refusal::AlreadyMarked => Fails::AlreadyMarked,
        Refusal::OutletsFull => Fails::OutletsFull,
        Refusal::NotMarked => Fails::NotMarked,
        Refusal::NoOutlet => Fails::NoOutlet,
        Refusal::LabelMemory => Fails::LabelMemory,
        Refusal::QueueCapacity => Fails::QueueCapacity,
        Refusal::EstimatorFit => Fails::EstimatorFit,
        Refusal::AnswerRow => Fails::AnswerRow,
        Refusal::CodeBeyond => Fails::CodeBeyond,
    }
}

fn read_plan<K: Kind>(res: Result<Plan<K>, NoPlan<K>>, row: &[u8]) -> Said {
    match res {
        Ok(plan) => Said::Planned(plan.count, Figure::of(plan.cost), dug(row)),
        Err(NoPlan::Refused(why)) => Said::Refused(fails_of(why)),
        Err(NoPlan::Unjoined(count)) => Said::Unjoined(count),
        Err(NoPlan::Stopped(count, floor)) => Said::Stopped(count, Figure::of(floor)),
    }
}

pub fn read_answer<K: Kind>(answer: &Option<Result<Reply<K>, NoPlan<K>>>, row: &[u8]) -> Said {
    match answer {
        None => Said::Untried,
        Some(Ok(Reply::Laid(run))) => Said::Laid(*run as usize),
        Some(Ok(Reply::Done)) => Said::Done,
        Some(Ok(Reply::Planned(plan))) => read_plan(Ok(*plan), row),
        Some(Err(why)) => read_plan(Err(*why), row),
    }
}

// What a plan says that is made with no sequence around it.
pub fn plan_once<Q: Queue, E: Estimator<Cost = Q::Cost>>(
    view: &View<'_, Q::Cost>,
    limit: u32,
    desk: &mut Desk<'_, Q, E>,
    row: &mut [u8],
) -> Said
where
    Q::Cost: Kind,
{
    let result = plan(view, limit, desk, row);
    read_plan(result, &*row)
}
