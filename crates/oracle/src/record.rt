// A record of a district: what the rules say of each call, with nothing of the library. Each call answers with the
// question that it fails, or it is noted.
ghost use Rattle.std.specs.Prelude.{◌≡◌, cond, Ok, Err};
ghost use Rattle.oracle.specs.Questions.{number_of};

use crate::costs::{bit, has};
use crate::kind::Kind;
use std::alloc::{AllocError, Global};

// The questions that can be failed, by their numbers.
#[derive(Clone, Copy, PartialEq, Eq)]
pub enum Fails {
    JunctionCount = 1,
    RunCapacity,
    NotAJunction,
    SameEnds,
    NoCost,
    TooBulky,
    RunsFull,
    NoRun,
    RunState,
    AlreadyMarked,
    OutletsFull,
    NotMarked,
    NoOutlet,
    LabelMemory,
    QueueCapacity,
    EstimatorFit,
    AnswerRow,
    NoLabelWaits,
    LimitReached,
    CodeBeyond,
}

impl Fails {
    pub fn number(self) -> u8
        ensures { result ≡ number_of self }
    {
        self as u8
    }
}

// A question: where the answer is not yes, it is failed.
pub fn ask(yes: bool, question: Fails) -> Result<(), Fails>
    ensures { result ≡ cond yes (Ok tt) (Err question) }
{
    if yes { Ok(()) } else { Err(question) }
}

#[derive(Clone, Copy)]
pub struct Laid<K> {
    pub a: u64,
    pub b: u64,
    pub cost: K,
    pub open: bool,
}

impl<K> Laid<K> {
    pub fn ends(&self) -> (usize, usize)
        ensures { result ≡ (self.now.a, self.now.b) }
    {
        (self.a as usize, self.b as usize)
    }
}

#[derive(Drop)]
pub struct Record<K> {
    pub junctions: u64,
    pub capacity: usize,
    pub runs: Vec<Laid<K>>,
    // Bit j tells whether junction j is an outlet.
    pub outlets: usize,
}

// What is asked of the cost of a run.
fn ask_cost<K: Kind>(cost: K) -> Result<(), Fails> {
    let (crossings, money) = cost.parts();
    ask(crossings > 0 || money > 0, Fails::NoCost)?;
    ask(crossings.max(money) <= 1_000_000, Fails::TooBulky)
}

impl<K: Kind> Record<K> {
    pub fn new(heap: Global, junctions: u64, capacity: usize) -> Record<K> {
        Record {
            junctions,
            capacity,
            runs: Vec::new(heap),
            outlets: 0,
        }
    }

    // What the making asks.
    pub fn make(&self) -> Result<(), Fails> {
        ask((1..=1024).contains(&self.junctions), Fails::JunctionCount)?;
        ask(self.capacity <= 4096, Fails::RunCapacity)
    }

    // What lay asks; the number of the run.
    fn ask_lay(&self, a: u64, b: u64, cost: K) -> Result<usize, Fails> {
        ask(a.max(b) < self.junctions, Fails::NotAJunction)?;
        ask(a != b, Fails::SameEnds)?;
        ask_cost(cost)?;
        ask(self.runs.len() < self.capacity, Fails::RunsFull)?;
        Ok(self.runs.len())
    }

    // The number of the run laid.
    // Memory ends the trial; a question that is failed is an answer.
    pub fn lay(&mut self, a: u64, b: u64, cost: K) -> Result<Result<usize, Fails>, AllocError> {
        let number = self.ask_lay(a, b, cost);
        if number.is_ok() {
            let open = true;
            self.runs.push(Laid { a, b, cost, open })?;
        }
        Ok(number)
    }

    pub fn reprice(&mut self, run: u64, cost: K) -> Result<(), Fails> {
        let laid = self.runs.get_mut(run as usize).ok_or(Fails::NoRun)?;
        ask_cost(cost)?;
        laid.cost = cost;
        Ok(())
    }

    // Opens or closes a run.
    // (`open` is the state that the run gets.)
    pub fn turn(&mut self, run: u64, open: bool) -> Result<(), Fails> {
        let laid = self.runs.get_mut(run as usize).ok_or(Fails::NoRun)?;
        ask(laid.open != open, Fails::RunState)?;
        laid.open = open;
        Ok(())
    }

    pub fn mark(&mut self, junction: u64) -> Result<(), Fails> {
        ask(junction < self.junctions, Fails::NotAJunction)?;
        let outlet = bit(junction as usize);
        ask(!has(self.outlets, outlet), Fails::AlreadyMarked)?;
        ask(self.outlets.count_ones() < 12, Fails::OutletsFull)?;
        self.outlets |= outlet;
        Ok(())
    }

    pub fn unmark(&mut self, junction: u64) -> Result<(), Fails> {
        ask(junction < self.junctions, Fails::NotAJunction)?;
        let outlet = bit(junction as usize);
        ask(has(self.outlets, outlet), Fails::NotMarked)?;
        self.outlets ^= outlet;
        Ok(())
    }

    // How many sets the outlets but one have; 0 where there is no outlet.
    pub fn sets(&self) -> usize {
        match self.outlets.count_ones() {
            0 => 0,
            k => bit(k as usize - 1),
        }
    }

    // How many labels there are, with those of the empty set.
    pub fn codes(&self) -> usize {
        (self.junctions as usize).saturating_mul(self.sets())
    }

    // How many turns always suffice.
    pub fn turns(&self) -> usize {
        (self.junctions as usize).saturating_mul(self.sets().saturating_sub(1))
    }
}
