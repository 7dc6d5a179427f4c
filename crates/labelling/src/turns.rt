// One turn: the next label is settled, and unless it is the goal its candidates are tried.
ghost use Rattle.std.specs.Prelude.{◌≡◌, ◌/◌, ◌%◌, ◌<◌, length};
ghost use Rattle.district.specs.Model.{layout_of};
ghost use Rattle.labelling.specs.Tables.{rule, codes, label_at, least_waiting};
ghost use Rattle.labelling.specs.Turns.{place_at, took};
ghost use Rattle.labelling.specs.Desks.{tables_on, Fit, Kept};
ghost use Rattle.labelling.specs.Starts.{size_of};

use super::desk::Desk;
use super::kinds::{Place, Size};
use district::view::View;
use estimate::Estimator;
use network::{Cost, Junction};
use queue::Queue;

impl<'m, Q: Queue, E: Estimator<Cost = Q::Cost>> Desk<'m, Q, E> {
    // The label at a code, as a place to go on from.
    fn place_of(&self, size: Size, code: usize) -> Place<Q::Cost>
        requires { (code < codes size) × (code < length self.now.labels.now) }
        ensures { (e : _) → result ≡ place_at (rule Q.Cost.Cost.kind e size) (tables_on self.now) code }
    {
        let sets = size.sets as usize;
        Place {
            v: (code / sets) as Junction,
            set: (code % sets) as u16,
            cost: self.cost_at(code),
        }
    }

    pub(crate) fn take_turn(
        &mut self,
        size: Size,
        view: &View<'_, Q::Cost>,
        goal: usize,
        number: u32,
    ) -> Option<(Q::Cost, usize)>
        requires fit { Fit (rule Q.Cost.Cost.kind (E.bound self.old.estimator) size) Q.waiting Q.ok self.old }
        requires sized { size ≡ size_of (layout_of view.now) }
        requires later { 0 < number }
        ensures answers { result ≡ least_waiting (rule Q.Cost.Cost.kind (E.bound self.old.estimator) size) (tables_on self.old) }
        ensures kept { Kept (rule Q.Cost.Cost.kind (E.bound self.old.estimator) size) Q.waiting Q.ok Q.Queue.lender self.old self.new }
        ensures same { tables_on self.new ≡ took (rule Q.Cost.Cost.kind (E.bound self.old.estimator) size) view.now.«open».now view.now.runs.now goal number (tables_on self.old) (least_waiting (rule Q.Cost.Cost.kind (E.bound self.old.estimator) size) (tables_on self.old)) }
    {
        let taken = self.queue.take()?;
        let code = taken.1;
        self.settle(code, number);
        if code == goal {
            return Some(taken);
        }
        let from = self.place_of(size, code);
        self.offer_runs(size, from, view);
        self.offer_forks(size, from);
        Some(taken)
    }
}
