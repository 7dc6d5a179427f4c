// The turns, within a limit.
ghost use Rattle.std.specs.Prelude.{◌≡◌, ◌<◌};
ghost use Rattle.district.specs.Model.{layout_of};
ghost use Rattle.labelling.specs.Tables.{rule, least_waiting};
ghost use Rattle.labelling.specs.Turns.{took};
ghost use Rattle.labelling.specs.Labelling.{labelled, settles, stopped};
ghost use Rattle.labelling.specs.Desks.{tables_on, Fit, Kept};
ghost use Rattle.labelling.specs.Starts.{size_of};

use super::desk::Desk;
use super::kinds::{Ending, Outcome, Size};
use district::view::View;
use estimate::Estimator;
use network::Cost;
use queue::Queue;

// With no turn left: the floor is the least key that waits.
fn stop<K: Cost>(least: Option<(K, usize)>) -> Outcome<K>
    ensures { result ≡ stopped least }
{
    match least {
        None => Outcome::NoneWaits,
        Some((key, _)) => Outcome::Stopped(key),
    }
}

impl<'m, Q: Queue, E: Estimator<Cost = Q::Cost>> Desk<'m, Q, E> {
    // Takes a turn, and says whether it settled the goal; none where no label waits.
    fn take_turn_towards(
        &mut self,
        size: Size,
        view: &View<'_, Q::Cost>,
        goal: usize,
        number: u32,
    ) -> Option<bool>
        requires fit { Fit (rule Q.Cost.Cost.kind (E.bound self.old.estimator) size) Q.waiting Q.ok self.old }
        requires sized { size ≡ size_of (layout_of view.now) }
        requires later { 0 < number }
        ensures answers { result ≡ settles goal (least_waiting (rule Q.Cost.Cost.kind (E.bound self.old.estimator) size) (tables_on self.old)) }
        ensures kept { Kept (rule Q.Cost.Cost.kind (E.bound self.old.estimator) size) Q.waiting Q.ok Q.Queue.lender self.old self.new }
        ensures same { tables_on self.new ≡ took (rule Q.Cost.Cost.kind (E.bound self.old.estimator) size) view.now.«open».now view.now.runs.now goal number (tables_on self.old) (least_waiting (rule Q.Cost.Cost.kind (E.bound self.old.estimator) size) (tables_on self.old)) }
    {
        let taken = self.take_turn(size, view, goal, number)?;
        Some(taken.1 == goal)
    }

    pub(crate) fn take_turns(
        &mut self,
        size: Size,
        view: &View<'_, Q::Cost>,
        goal: usize,
        limit: u32,
    ) -> Ending<Q::Cost>
        requires fit { Fit (rule Q.Cost.Cost.kind (E.bound self.old.estimator) size) Q.waiting Q.ok self.old }
        requires sized { size ≡ size_of (layout_of view.now) }
        ensures kept { Kept (rule Q.Cost.Cost.kind (E.bound self.old.estimator) size) Q.waiting Q.ok Q.Queue.lender self.old self.new }
        ensures same { record { ending = result; left = tables_on self.new } ≡ labelled (rule Q.Cost.Cost.kind (E.bound self.old.estimator) size) view.now.«open».now view.now.runs.now goal limit 0 (tables_on self.old) }
    {
        for turns in 0..limit {
            let number = turns + 1;
            let Some(is_last) = self.take_turn_towards(size, view, goal, number) else {
                return Ending {
                    outcome: Outcome::NoneWaits,
                    turns,
                };
            };
            if is_last {
                return Ending {
                    outcome: Outcome::Finished,
                    turns: number,
                };
            }
        }
        Ending {
            outcome: stop(self.queue.least()),
            turns: limit,
        }
    }
}
