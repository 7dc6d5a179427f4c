// A call with the place for its answer.
ghost use Rattle.std.specs.Prelude.{◌≡◌};
ghost use Rattle.replay.specs.Sequence.{answered};

use network::{Cost, RunNumber};
use search::{NoPlan, Plan};

// What a plan may take: so many turns, and of what is lent so many places for labels, codes of the queue, and junctions
// that the estimator may be prepared for.
#[derive(Clone, Copy)]
pub struct Allowance {
    pub limit: u32,
    pub labels: usize,
    pub codes: usize,
    pub junctions: usize,
}

#[derive(Clone, Copy)]
pub enum Call<K> {
    Lay { a: u64, b: u64, cost: K },
    Reprice { run: u64, cost: K },
    Close { run: u64 },
    Open { run: u64 },
    Mark { junction: u64 },
    Unmark { junction: u64 },
    Plan(Allowance),
}

// What a call that was taken answers.
#[derive(Clone, Copy)]
pub enum Reply<K> {
    // The number of the run laid.
    Laid(RunNumber),
    Done,
    Planned(Plan<K>),
}

// One call of a sequence. A plan writes into its row a byte for each run laid, 1 if it belongs to the network.
#[derive(Drop)]
pub struct Turn<K> {
    pub call: Call<K>,
    // None where the call has not been tried.
    pub answer: Option<Result<Reply<K>, NoPlan<K>>>,
    pub row: Vec<u8>,
}

impl<K: Cost> Turn<K> {
    // Notes what the call got.
    pub(crate) fn note(&mut self, answer: Result<Reply<K>, NoPlan<K>>)
        ensures { self.new ≡ answered self.old answer }
    {
        self.answer = Some(answer);
    }
}
