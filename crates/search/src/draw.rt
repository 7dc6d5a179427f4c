// Drawing: from a settled label along the ways back. The table holds no costs, and turns fall along it.
ghost use Rattle.std.specs.Prelude.{◌≡◌, ℕ, ◌-◌, ◌<◌, ◌≤◌, length, set as put_at};
ghost use Rattle.labelling.specs.Tables.{codes};
ghost use Rattle.optimal.specs.Drawing.{far_end, back_of, drawn};
ghost use Rattle.search.specs.Drawing.{turn_of, Settled, Falls, Falls-prop};

use labelling::{Back, Size, Way};
use network::{Cost, Junction, Run, RunNumber};

// What a network is drawn from: the ways back, and the runs that they go along.
#[derive(Drop)]
pub(crate) struct Drawing<'d, K> {
    pub size: Size,
    pub runs: &'d [Run<K>],
    pub ways: &'d [Way],
    ghost long: { codes size ≤ length ways.now },
    ghost falls: { Falls size runs.now ways.now } by { Falls-prop size runs.now ways.now },
}

// The run belongs to the network.
fn mark(answer: &mut [u8], number: RunNumber)
    requires { number < length answer.old }
    ensures { answer.new ≡ put_at answer.old number 1 }
{
    answer[number as usize] = 1;
}

impl<K: Cost> Drawing<'_, K> {
    // The other end of a run, seen from `v`. (Unlike in a labelling there is one: a way back goes by a run that ends at `v`.)
    fn far_end(&self, number: RunNumber, v: Junction) -> Junction
        requires { number < length self.now.runs.now }
        ensures { result ≡ far_end self.now.runs.now number v }
    {
        let run = self.runs[number as usize];
        if run.a == v { run.b } else { run.a }
    }

    // The way back of the label of `v` and `set`.
    fn way_back(&self, v: Junction, set: u16) -> Back
        requires { Settled self.now.size self.now.runs.now self.now.ways.now v set }
        ensures { result ≡ back_of self.now.size self.now.runs.now self.now.ways.now v set }
    {
        self.ways[self.size.code(v, set)].back
    }

    // Marks a branch, run by run until a fork or its end.
    #[cycle(branch_fork)]
    pub(crate) fn mark_branch(&self, from: Junction, set: u16, answer: &mut [u8])
        requires room { length self.now.runs.now ≤ length answer.old }
        requires settled { Settled self.now.size self.now.runs.now self.now.ways.now from set }
        ensures { (n : ℕ) → turn_of self.now.size self.now.runs.now self.now.ways.now from set < n → answer.new ≡ drawn self.now.size self.now.runs.now self.now.ways.now n from set answer.old }
    {
        let mut v = from;
        loop {
            match self.way_back(v, set) {
                Back::Start => return,
                Back::Run(number) => {
                    mark(answer, number);
                    v = self.far_end(number, v);
                }
                Back::Fork(part) => {
                    self.mark_fork(v, set, part, answer);
                    return;
                }
            }
        }
    }

    // The two branches of a fork: that of the noted set, and that of the other outlets.
    #[cycle(branch_fork)]
    fn mark_fork(&self, v: Junction, set: u16, part: u16, answer: &mut [u8])
        requires room { length self.now.runs.now ≤ length answer.old }
        requires inside { part ≤ set }
        requires noted { Settled self.now.size self.now.runs.now self.now.ways.now v part }
        requires other { Settled self.now.size self.now.runs.now self.now.ways.now v (set - part) }
        ensures { (n : ℕ) → turn_of self.now.size self.now.runs.now self.now.ways.now v part < n → turn_of self.now.size self.now.runs.now self.now.ways.now v (set - part) < n → answer.new ≡ drawn self.now.size self.now.runs.now self.now.ways.now n v (set - part) (drawn self.now.size self.now.runs.now self.now.ways.now n v part answer.old) }
    {
        self.mark_branch(v, part, answer);
        self.mark_branch(v, set - part, answer);
    }
}
