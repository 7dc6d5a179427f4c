// The calls that change a run or take an outlet away. Each changes one record or mark and leaves all others.
ghost use Rattle.std.specs.Prelude.{◌≡◌, ◌<◌, cond, length, Ok, Err, nat_le, set as put_at, slice_index_or};
ghost use Rattle.std.specs.List.{remove};
ghost use Rattle.arrayvec.specs.ArrayVec.{array_vec_len};
ghost use Rattle.network.specs.declared.refusal.Refusal.TheVariants.{NoRun};
ghost use Rattle.district.specs.Model.{model_of, unmark_answer, after_unmark, reprice_answer, after_reprice, close_answer, after_close, open_answer, after_open};

use super::calls::let_in;
use super::{District, MOST_OUTLETS};
use arrayvec::ArrayVec;
use network::{Cost, Junction, Refusal, Run};

impl<K: Cost> District<K> {
    // A new cost for a run, open or closed.
    pub fn reprice(&mut self, run: u64, cost: K) -> Result<(), Refusal>
        ensures answers { result ≡ reprice_answer K.Cost.kind (model_of self.old) run cost }
        ensures writes { model_of self.new ≡ after_reprice K.Cost.kind (model_of self.old) run cost }
    {
        let at = self.run(run)?;
        let_in(cost)?;
        set_cost(&mut self.runs, at, cost);
        Ok(())
    }

    // No plan may take this run any more; it keeps its number and its place.
    pub fn close(&mut self, run: u64) -> Result<(), Refusal>
        ensures answers { result ≡ close_answer (model_of self.old) run }
        ensures writes { model_of self.new ≡ after_close (model_of self.old) run }
    {
        self.set_open(run, false)
    }

    // Plans may take this run again.
    pub fn open(&mut self, run: u64) -> Result<(), Refusal>
        ensures answers { result ≡ open_answer (model_of self.old) run }
        ensures writes { model_of self.new ≡ after_open (model_of self.old) run }
    {
        self.set_open(run, true)
    }

    // One outlet less; the others keep their order.
    pub fn unmark(&mut self, junction: u64) -> Result<(), Refusal>
        ensures answers { result ≡ unmark_answer (model_of self.old) junction }
        ensures writes { model_of self.new ≡ after_unmark (model_of self.old) junction }
    {
        let outlet = self.junction(junction)?;
        match self.place(outlet) {
            Ok(at) => {
                take_out(&mut self.outlets, at);
                Ok(())
            }
            Err(_) => Err(Refusal::NotMarked),
        }
    }

    // The run open or closed, as `mark` says; refused where it is so already.
    fn set_open(&mut self, run: u64, mark: bool) -> Result<(), Refusal>
        ensures answers { result ≡ cond mark (open_answer (model_of self.old) run) (close_answer (model_of self.old) run) }
        ensures writes { model_of self.new ≡ cond mark (after_open (model_of self.old) run) (after_close (model_of self.old) run) }
    {
        let at = self.run(run)?;
        if self.open[at] == mark {
            return Err(Refusal::RunState);
        }
        set_mark(&mut self.open, at, mark);
        Ok(())
    }

    // Where the run of a number stands, if it has been laid. (As `junction`, with another type, bound and refusal.)
    fn run(&self, number: u64) -> Result<usize, Refusal>
        ensures { result ≡ cond (nat_le (length (model_of self.now).runs) number) (Err NoRun) (Ok number) }
    {
        match usize::try_from(number) {
            Ok(at) if at < usize::from(self.laid) => Ok(at),
            _ => Err(Refusal::NoRun),
        }
    }
}

// The run at `i` at another cost.
fn set_cost<K: Cost>(runs: &mut [Run<K>], i: usize, cost: K)
    requires { i < length runs.old }
    ensures { (d : _) → runs.new ≡ put_at runs.old i (record { a = (slice_index_or runs.old i d).a; b = (slice_index_or runs.old i d).b; cost = cost }) }
{
    runs[i].cost = cost;
}

// The run at `i` open or closed, as `mark` says.
fn set_mark(open: &mut [bool], i: usize, mark: bool)
    requires { i < length «open».old }
    ensures { «open».new ≡ put_at «open».old i mark }
{
    open[i] = mark;
}

// Takes the one at `at` out, and moves those after it down by one.
fn take_out(outlets: &mut ArrayVec<Junction, MOST_OUTLETS>, at: usize)
    requires { at < array_vec_len outlets.old }
    ensures { outlets.new.items ≡ remove outlets.old.items at }
{
    outlets.remove(at);
}
