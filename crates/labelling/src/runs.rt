// The candidates over the runs that end at a junction.
ghost use Rattle.std.specs.Prelude.{◌≡◌, ◌<◌};
ghost use Rattle.district.specs.Model.{layout_of};
ghost use Rattle.labelling.specs.Tables.{rule};
ghost use Rattle.labelling.specs.Runs.{other_end, along_to, runs_offered};
ghost use Rattle.labelling.specs.Desks.{tables_on, Fit, Kept};
ghost use Rattle.labelling.specs.Starts.{size_of};

use super::desk::Desk;
use super::kinds::{Back, Place, Size};
use district::view::View;
use estimate::Estimator;
use network::{Cost, Junction, Run, RunNumber};
use queue::Queue;

fn other_end<K: Cost>(run: &Run<K>, v: Junction) -> Option<Junction>
    ensures { result ≡ other_end run.now v }
{
    if run.a == v {
        Some(run.b)
    } else if run.b == v {
        Some(run.a)
    } else {
        None
    }
}

impl<'m, Q: Queue, E: Estimator<Cost = Q::Cost>> Desk<'m, Q, E> {
    // Over one run, which is open.
    fn offer_run(&mut self, size: Size, from: Place<Q::Cost>, number: RunNumber, run: &Run<Q::Cost>)
        requires fit { Fit (rule Q.Cost.Cost.kind (E.bound self.old.estimator) size) Q.waiting Q.ok self.old }
        requires ends { (run.now.a < size.junctions) × (run.now.b < size.junctions) }
        requires outlets { from.set < size.sets }
        ensures kept { Kept (rule Q.Cost.Cost.kind (E.bound self.old.estimator) size) Q.waiting Q.ok Q.Queue.lender self.old self.new }
        ensures same { tables_on self.new ≡ along_to (rule Q.Cost.Cost.kind (E.bound self.old.estimator) size) (tables_on self.old) from number run.now (other_end run.now from.v) }
    {
        if let Some(w) = other_end(run, from.v) {
            if let Some(cost) = from.cost.sum(run.cost) {
                let to = Place {
                    v: w,
                    set: from.set,
                    cost,
                };
                self.offer(size, to, Back::Run(number));
            }
        }
    }

    pub(crate) fn offer_runs(&mut self, size: Size, from: Place<Q::Cost>, view: &View<'_, Q::Cost>)
        requires fit { Fit (rule Q.Cost.Cost.kind (E.bound self.old.estimator) size) Q.waiting Q.ok self.old }
        requires sized { size ≡ size_of (layout_of view.now) }
        requires outlets { from.set < size.sets }
        ensures kept { Kept (rule Q.Cost.Cost.kind (E.bound self.old.estimator) size) Q.waiting Q.ok Q.Queue.lender self.old self.new }
        ensures same { tables_on self.new ≡ runs_offered (rule Q.Cost.Cost.kind (E.bound self.old.estimator) size) from view.now.«open».now 0 view.now.runs.now (tables_on self.old) }
    {
        // Read once, and not from the view for each run.
        let open = view.open;
        for (i, run) in view.runs.iter().enumerate() {
            // By the number, which the candidate notes too: a zip within `enumerate` is no plainer.
            if open[i] {
                self.offer_run(size, from, i as RunNumber, run);
            }
        }
    }
}
