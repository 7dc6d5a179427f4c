// The calls on a district. Each is a function on the abstract district: a refusal leaves it as found.
ghost use Rattle.std.specs.Prelude.{◌≡◌, ℕ, ◌+◌, ◌<◌, ◌≤◌, MatchResult, Ok, Err, cond, nat_le, length, slice_index};
ghost use Rattle.std.specs.List.{insert};
ghost use Rattle.arrayvec.specs.ArrayVec.{array_vec_len};
ghost use Rattle.std.specs.List.Sorted.{IsBinarySearchResult};
ghost use Rattle.std.specs.Ordering.{nat_cmp};
ghost use Rattle.network.specs.declared.refusal.Refusal.TheVariants.{NotAJunction};
ghost use Rattle.network.specs.Layouts.{Priced};
ghost use Rattle.district.specs.Model.{model_of, layout_of, seen, lay_answer, after_lay, mark_answer, after_mark, price_answer, Stands, GoesIn, Made, Returned};

use super::{District, MOST_OUTLETS, Memory, Unmade};
use crate::view::View;
use arrayvec::ArrayVec;
use network::{Cost, Junction, Refusal, Run, RunNumber};

// The most junctions and runs that a district may have.
const MOST_JUNCTIONS: u64 = 1024;

const MOST_RUNS: usize = 4096;

// The greatest bulk that the cost of a run may have.
const MOST_BULK: u64 = 1_000_000;

impl<K: Cost> District<K> {
    // A district of `junctions` junctions, with no runs and no outlets, over the two rows brought:
    // the shorter one's length is the run capacity.
    pub fn make(junctions: u64, memory: Memory<K>) -> Result<District<K>, Unmade<K>>
        ensures { Made junctions memory result }
    {
        if !(1..=MOST_JUNCTIONS).contains(&junctions) {
            return Err(Unmade {
                why: Refusal::JunctionCount,
                memory,
            });
        }
        if memory.runs.len().min(memory.open.len()) > MOST_RUNS {
            return Err(Unmade {
                why: Refusal::RunCapacity,
                memory,
            });
        }
        let Memory { runs, open } = memory;
        Ok(District {
            junctions: junctions as Junction,
            laid: 0,
            runs,
            open,
            outlets: ArrayVec::new(),
        })
    }

    // One more run, which is open; its number.
    pub fn lay(&mut self, a: u64, b: u64, cost: K) -> Result<RunNumber, Refusal>
        ensures answers { result ≡ lay_answer K.Cost.kind (model_of self.old) a b cost }
        ensures writes { model_of self.new ≡ after_lay K.Cost.kind (model_of self.old) a b cost }
    {
        let a = self.junction(a)?;
        let b = self.junction(b)?;
        if a == b {
            return Err(Refusal::SameEnds);
        }
        let_in(cost)?;
        let at = usize::from(self.laid);
        if at >= self.runs.len().min(self.open.len()) {
            return Err(Refusal::RunsFull);
        }
        self.runs[at] = Run { a, b, cost };
        self.open[at] = true;
        self.laid += 1;
        Ok(self.laid - 1)
    }

    // One more outlet.
    pub fn mark(&mut self, junction: u64) -> Result<(), Refusal>
        ensures answers { result ≡ mark_answer (model_of self.old) junction }
        ensures writes { model_of self.new ≡ after_mark (model_of self.old) junction }
    {
        let outlet = self.junction(junction)?;
        match self.place(outlet) {
            Ok(_) => Err(Refusal::AlreadyMarked),
            Err(_) if self.outlets.is_full() => Err(Refusal::OutletsFull),
            Err(at) => {
                take_in(&mut self.outlets, at, outlet);
                Ok(())
            }
        }
    }

    // What a search reads.
    pub fn view(&self) -> View<'_, K>
        ensures shows { layout_of result ≡ seen (model_of self.now) }
        ensures priced { Priced K.Cost.kind (layout_of result).runs }
    {
        let n = usize::from(self.laid);
        View {
            junctions: self.junctions,
            runs: &self.runs[0..n],
            open: &self.open[0..n],
            outlets: &self.outlets,
        }
    }

    // The rows that were brought at the making, with what they hold now.
    pub fn into_memory(self) -> Memory<K>
        ensures { Returned self result }
    {
        let District {
            junctions: _,
            laid: _,
            runs,
            open,
            outlets: _,
        } = self;
        Memory { runs, open }
    }

    // Where an outlet stands, or else where it would go in.
    pub(super) fn place(&self, outlet: Junction) -> Result<usize, usize>
        ensures { MatchResult result (Stands (model_of self.now).outlets outlet) (GoesIn (model_of self.now).outlets outlet) }
    {
        place_of(&self.outlets, outlet)
    }

    // The junction of a number, if the district has it.
    pub(super) fn junction(&self, number: u64) -> Result<Junction, Refusal>
        ensures { result ≡ cond (nat_le (model_of self.now).junctions number) (Err NotAJunction) (Ok number) }
    {
        match Junction::try_from(number) {
            Ok(junction) if junction < self.junctions => Ok(junction),
            _ => Err(Refusal::NotAJunction),
        }
    }
}

// Moves the places from `at` to `n` of a row up by one, and puts `j` at `at`. The library's `insert` turns them by `rotate_right`,
// which is made a call of `memmove`; the C interface asks for no such name.
fn put_in(row: &mut [Junction], n: usize, at: usize, j: Junction)
    requires { (n < length row.old) × (at ≤ n) }
    ensures below { (k : ℕ) → k < at → slice_index row.new k ≡ slice_index row.old k }
    ensures here { slice_index row.new at ≡ j }
    ensures above { (k : ℕ) → at ≤ k → k < n → slice_index row.new (k + 1) ≡ slice_index row.old k }
{
    let mut k = n;
    while k > at {
        row[k] = row[k - 1];
        k -= 1;
    }
    row[at] = j;
}

// One more outlet at `at`.
fn take_in(outlets: &mut ArrayVec<Junction, MOST_OUTLETS>, at: usize, outlet: Junction)
    requires { (at ≤ array_vec_len outlets.old) × (array_vec_len outlets.old < 12) }
    ensures { outlets.new.items ≡ insert outlets.old.items at outlet }
{
    let n = outlets.len();
    outlets.push(outlet);
    put_in(outlets.as_mut_slice(), n, at, outlet);
}

// Where `outlet` stands in a row that rises, or else where it would go in.
fn place_of(row: &[Junction], outlet: Junction) -> Result<usize, usize>
    ensures { IsBinarySearchResult (λ y. nat_cmp y outlet) row.now result }
{
    row.binary_search(&outlet)
}

// Whether a run may have this cost.
pub(super) fn let_in<K: Cost>(cost: K) -> Result<(), Refusal>
    ensures { result ≡ price_answer K.Cost.kind cost }
{
    if !K::zero().is_below(cost) {
        return Err(Refusal::NoCost);
    }
    if cost.bulk() > MOST_BULK {
        return Err(Refusal::TooBulky);
    }
    Ok(())
}
