// One candidate for a label.
ghost use Rattle.std.specs.Prelude.{◌≡◌, ◌<◌, length};
ghost use Rattle.labelling.specs.Tables.{rule};
ghost use Rattle.labelling.specs.Offers.{improves, offered};
ghost use Rattle.labelling.specs.Desks.{tables_on, Fit, Kept};

use super::desk::Desk;
use super::kinds::{Back, Place, Size};
use estimate::Estimator;
use network::Cost;
use queue::Queue;

impl<'m, Q: Queue, E: Estimator<Cost = Q::Cost>> Desk<'m, Q, E> {
    fn improves_on(&self, code: usize, cost: Q::Cost) -> bool
        requires { (code < length self.now.labels.now) × (code < length self.now.ways.now) }
        ensures { (e : _) (s : _) → result ≡ improves (rule Q.Cost.Cost.kind e s) (tables_on self.now) code cost }
    {
        self.ways[code].turn == 0 && self.labels[code].is_none_or(|least| cost.is_below(least))
    }

    pub(crate) fn offer(&mut self, size: Size, to: Place<Q::Cost>, back: Back)
        requires fit { Fit (rule Q.Cost.Cost.kind (E.bound self.old.estimator) size) Q.waiting Q.ok self.old }
        requires junction { to.v < size.junctions }
        requires outlets { to.set < size.sets }
        ensures kept { Kept (rule Q.Cost.Cost.kind (E.bound self.old.estimator) size) Q.waiting Q.ok Q.Queue.lender self.old self.new }
        ensures same { tables_on self.new ≡ offered (rule Q.Cost.Cost.kind (E.bound self.old.estimator) size) (tables_on self.old) to back }
    {
        let code = size.code(to.v, to.set);
        // Most candidates are not kept, and an estimate takes longer than to see that.
        if self.improves_on(code, to.cost) {
            if let Some(key) = to.cost.sum(self.estimator.estimate(to.v, to.set)) {
                self.write(code, to.cost, back);
                let _ = self.queue.put(code, key);
            }
        }
    }
}
