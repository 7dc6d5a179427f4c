// The candidates over the settled sets at the same junction.
ghost use Rattle.std.specs.Prelude.{◌≡◌, ℕ, ◌+◌, ◌<◌, ◌≢◌, bit_and, bit_or};
ghost use Rattle.labelling.specs.Tables.{rule};
ghost use Rattle.labelling.specs.Forks.{fork, forks_offered, Closed};
ghost use Rattle.labelling.specs.Desks.{tables_on, Fit, Kept};

use super::desk::Desk;
use super::kinds::{Back, Place, Size};
use estimate::Estimator;
use network::Cost;
use queue::Queue;

// The next set after one that shares no outlet with `taken`, which shares none with it either.
fn next_apart(taken: u16, set: u16) -> u16
    requires apart { bit_and taken set ≡ 0 }
    requires room { bit_or set taken < 65535 }
    ensures rises { set < result }
    ensures apart { bit_and taken result ≡ 0 }
    ensures skips { (x : ℕ) → set < x → x < result → bit_and taken x ≢ 0 }
{
    let after = (set | taken) + 1;
    after - (after & taken)
}

impl<'m, Q: Queue, E: Estimator<Cost = Q::Cost>> Desk<'m, Q, E> {
    fn offer_fork(&mut self, size: Size, from: Place<Q::Cost>, set: u16)
        requires fit { Fit (rule Q.Cost.Cost.kind (E.bound self.old.estimator) size) Q.waiting Q.ok self.old }
        requires junction { from.v < size.junctions }
        requires outlets { from.set < size.sets }
        requires others { set < size.sets }
        requires closed { Closed size.sets }
        ensures kept { Kept (rule Q.Cost.Cost.kind (E.bound self.old.estimator) size) Q.waiting Q.ok Q.Queue.lender self.old self.new }
        ensures same { tables_on self.new ≡ fork (rule Q.Cost.Cost.kind (E.bound self.old.estimator) size) from set (tables_on self.old) }
    {
        if set == 0 {
            return;
        }
        if from.set & set != 0 {
            return;
        }
        let code = size.code(from.v, set);
        if self.ways[code].turn == 0 {
            return;
        }
        let other = self.cost_at(code);
        if let Some(cost) = from.cost.sum(other) {
            let to = Place {
                v: from.v,
                set: from.set | set,
                cost,
            };
            self.offer(size, to, Back::Fork(set));
        }
    }

    pub(crate) fn offer_forks(&mut self, size: Size, from: Place<Q::Cost>)
        requires fit { Fit (rule Q.Cost.Cost.kind (E.bound self.old.estimator) size) Q.waiting Q.ok self.old }
        requires junction { from.v < size.junctions }
        requires outlets { from.set < size.sets }
        requires closed { Closed size.sets }
        ensures kept { Kept (rule Q.Cost.Cost.kind (E.bound self.old.estimator) size) Q.waiting Q.ok Q.Queue.lender self.old self.new }
        ensures same { tables_on self.new ≡ forks_offered (rule Q.Cost.Cost.kind (E.bound self.old.estimator) size) from (tables_on self.old) }
    {
        let mut set = next_apart(from.set, 0);
        while set < size.sets {
            self.offer_fork(size, from, set);
            set = next_apart(from.set, set);
        }
    }
}
