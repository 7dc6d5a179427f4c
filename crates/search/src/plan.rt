// A plan: the questions, the labelling, and the answer.
ghost use Rattle.std.specs.Prelude.{◌≡◌, suc, ◌-◌, ◌<◌, ◌≤◌, length, Err, MatchResult};
ghost use Rattle.network.specs.Layouts.{Priced};
ghost use Rattle.district.specs.Model.{layout_of};
ghost use Rattle.estimate.specs.Estimates.{Prepared};
ghost use Rattle.labelling.specs.declared.kinds.Outcome.TheVariants.{Finished};
ghost use Rattle.labelling.specs.Starts.{size_of, wiped};
ghost use Rattle.labelling.specs.Tables.{codes, code_of};
ghost use Rattle.labelling.specs.Desks.{tables_on, places_on};
ghost use Rattle.optimal.specs.Drawing.{drawn};
ghost use Rattle.search.specs.Desks.{Stands};
ghost use Rattle.search.specs.Drawing.{turn_of, Settled};
ghost use Rattle.search.specs.Planning.{cost_at, questions, concluded, Carried, Drawable};
ghost use Rattle.search.specs.Promise.{Right};

use crate::answer::{NoPlan, Plan};
use crate::draw::Drawing;
use district::view::View;
use estimate::Estimator;
use labelling::{Desk, Ending, Outcome, Size, room};
use network::{Cost, Junction, Refusal};
use queue::Queue;

// Questions 13 to 17, in their order.
fn ask<K: Cost>(
    view: &View<'_, K>,
    places: usize,
    capacity: usize,
    fits: bool,
    row: usize,
) -> Result<Size, Refusal>
    ensures { result ≡ questions (layout_of view.now) places capacity fits row }
{
    let size = room(view, places, capacity)?;
    if !fits {
        return Err(Refusal::EstimatorFit);
    }
    if row < view.runs.len() {
        return Err(Refusal::AnswerRow);
    }
    Ok(size)
}

// The cost of the root with all others, and its runs drawn into the answer row.
fn finish<Q: Queue, E: Estimator<Cost = Q::Cost>>(
    desk: &Desk<'_, Q, E>,
    drawing: &Drawing<'_, Q::Cost>,
    root: Junction,
    turns: u32,
    answer: &mut [u8],
) -> Plan<Q::Cost>
    requires settled { Settled drawing.now.size drawing.now.runs.now drawing.now.ways.now root (drawing.now.size.sets - 1) }
    requires turns { turn_of drawing.now.size drawing.now.runs.now drawing.now.ways.now root (drawing.now.size.sets - 1) ≤ turns }
    requires labels { codes drawing.now.size ≤ length desk.now.labels.now }
    requires room { length drawing.now.runs.now ≤ length answer.old }
    ensures cost { result ≡ record { cost = cost_at Q.Cost.Cost.kind (tables_on desk.now) (code_of drawing.now.size root (drawing.now.size.sets - 1)); count = turns } }
    ensures row { answer.new ≡ drawn drawing.now.size drawing.now.runs.now drawing.now.ways.now (suc turns) root (drawing.now.size.sets - 1) (wiped (length drawing.now.runs.now) 0 answer.old) }
{
    let all = drawing.size.sets - 1;
    answer[..drawing.runs.len()].fill(0);
    drawing.mark_branch(root, all, answer);
    Plan {
        cost: desk.cost_of(drawing.size.code(root, all)),
        count: turns,
    }
}

// The answer of a labelling that has ended.
fn conclude<Q: Queue, E: Estimator<Cost = Q::Cost>>(
    desk: &Desk<'_, Q, E>,
    size: Size,
    view: &View<'_, Q::Cost>,
    ending: Ending<Q::Cost>,
    answer: &mut [u8],
) -> Result<Plan<Q::Cost>, NoPlan<Q::Cost>>
    requires marked { 0 < length view.now.outlets.now }
    requires size { size ≡ size_of (layout_of view.now) }
    requires places { codes size ≤ places_on desk.now }
    requires room { length view.now.runs.now ≤ length answer.old }
    requires drawable { ending.outcome ≡ Finished → Drawable (layout_of view.now) (tables_on desk.now) ending.turns }
    ensures { record { answer = result; row = answer.new } ≡ concluded Q.Cost.Cost.kind (layout_of view.now) (record { ending = ending; left = tables_on desk.now }) answer.old }
{
    if view.outlets.len() == 1 {
        answer[..view.runs.len()].fill(0);
        return Ok(Plan {
            cost: Q::Cost::zero(),
            count: 0,
        });
    }
    match ending.outcome {
        Outcome::NoneWaits => Err(NoPlan::Unjoined(ending.turns)),
        Outcome::Stopped(floor) => Err(NoPlan::Stopped(ending.turns, floor)),
        Outcome::Finished => {
            let drawing = Drawing {
                size,
                runs: view.runs,
                ways: &*desk.ways,
            };
            Ok(finish(desk, &drawing, view.outlets[0], ending.turns, answer))
        }
    }
}

// A cheapest network for the outlets of a view, in at most `limit` turns, or why there is none. The answer row
// then holds a byte for each run laid, 1 if it belongs to the network. Whatever lay on the desk before does not
// matter; refusals 13 to 17 leave everything as found.
pub fn plan<Q: Queue, E: Estimator<Cost = Q::Cost>>(
    view: &View<'_, Q::Cost>,
    limit: u32,
    desk: &mut Desk<'_, Q, E>,
    answer: &mut [u8],
) -> Result<Plan<Q::Cost>, NoPlan<Q::Cost>>
    ensures stands { Stands Q.Queue.lender Q.waiting E.Estimator.lender E.within desk.old desk.new }
    ensures plans { MatchResult (questions (layout_of view.now) (places_on desk.old) (length (Q.waiting desk.old.queue)) (E.within desk.old.estimator (layout_of view.now).junctions (length (layout_of view.now).outlets)) (length answer.old))
        (λ _. Carried Q.Cost.Cost.kind (E.bound desk.new.estimator) (layout_of view.now) limit (tables_on desk.old) (tables_on desk.new) answer.old (Q.waiting desk.new.queue) (record { answer = result; row = answer.new })
        × E.makes (layout_of view.now) (E.bound desk.new.estimator)
        × Prepared Q.Cost.Cost.kind (layout_of view.now) (E.bound desk.new.estimator)
        × Q.ok desk.new.queue
        × (Priced Q.Cost.Cost.kind (layout_of view.now).runs → Right Q.Cost.Cost.kind (E.bound desk.new.estimator) (layout_of view.now) limit (tables_on desk.new) answer.new result))
        (λ why. (result ≡ Err (NoPlan.Refused why)) × (desk.new ≡ desk.old) × (answer.new ≡ answer.old)) }
{
    let places = desk.labels.len().min(desk.ways.len());
    let fits = desk
        .estimator
        .fits(view.junctions as usize, view.outlets.len());
    let size = ask(view, places, desk.queue.capacity(), fits, answer.len())?;
    let _ = desk.estimator.prepare(view);
    let ending = desk.label_view(view, limit)?;
    conclude(desk, size, view, ending, answer)
}
