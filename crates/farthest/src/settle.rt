// Distances, found by trials along the open runs, in rounds, until a round changes nothing.
// The distance of junction v to the j-th outlet stands at v × 12 + j.
ghost use Rattle.std.specs.Prelude.{◌≡◌, ℕ, ◌+◌, ◌*◌, ◌<◌, ◌≤◌, false, cond, length, take, slice_index};
ghost use Rattle.farthest.specs.Trials.{open_runs, arc, run_arcs, round_arcs, improves, tried, applied, rounds, with_outlets, table};

use district::district::MOST_OUTLETS;
use district::view::View;
use network::{Cost, Junction, Run};

fn is_better<K: Cost>(old: Option<K>, sum: K) -> bool
    ensures { result ≡ improves K.Cost.kind old sum }
{
    old.is_none_or(|cost| sum.is_below(cost))
}

// One trial; says whether it changed something.
fn relax<K: Cost>(ds: &mut [Option<K>], from: usize, to: usize, cost: K) -> bool
    requires { (from < length ds.old) × (to < length ds.old) }
    ensures after { ds.new ≡ tried K.Cost.kind (arc from to cost) ds.old }
    ensures still { result ≡ false → ds.new ≡ ds.old }
{
    let Some(sum) = ds[from].and_then(|known| known.sum(cost)) else {
        return false;
    };
    if is_better(ds[to], sum) {
        ds[to] = Some(sum);
        return true;
    }
    false
}

// The trials of one run, for the first `count` outlets.
fn try_run<K: Cost>(ds: &mut [Option<K>], run: &Run<K>, count: usize) -> bool
    requires { (count ≤ 12) × ((run.now.a * 12 + 12 ≤ length ds.old) × (run.now.b * 12 + 12 ≤ length ds.old)) }
    ensures after { ds.new ≡ applied K.Cost.kind (run_arcs count run.now) ds.old }
    ensures still { result ≡ false → ds.new ≡ ds.old }
{
    let mut changed = false;
    // By the number: each trial reads one place of the row and writes another.
    for j in 0..count {
        let a = run.a as usize * MOST_OUTLETS + j;
        let b = run.b as usize * MOST_OUTLETS + j;
        let there = relax(ds, b, a, run.cost);
        let back = relax(ds, a, b, run.cost);
        changed |= there | back;
    }
    changed
}

// The same where the run is open, and nothing where it is closed.
fn try_if_open<K: Cost>(ds: &mut [Option<K>], run: &Run<K>, open: bool, count: usize) -> bool
    requires { (count ≤ 12) × ((run.now.a * 12 + 12 ≤ length ds.old) × (run.now.b * 12 + 12 ≤ length ds.old)) }
    ensures after { ds.new ≡ cond «open» (applied K.Cost.kind (run_arcs count run.now) ds.old) ds.old }
    ensures still { result ≡ false → ds.new ≡ ds.old }
{
    if !open {
        return false;
    }
    try_run(ds, run, count)
}

// The trials of one round.
fn round<K: Cost>(ds: &mut [Option<K>], view: &View<'_, K>) -> bool
    requires { view.now.junctions * 12 ≤ length ds.old }
    ensures after { ds.new ≡ applied K.Cost.kind (round_arcs (length view.now.outlets.now) (open_runs view.now.runs.now view.now.«open».now)) ds.old }
    ensures still { result ≡ false → ds.new ≡ ds.old }
{
    let count = view.outlets.len();
    let mut changed = false;
    for (run, open) in view.runs.iter().zip(view.open) {
        changed |= try_if_open(ds, run, *open, count);
    }
    changed
}

// Rounds until one changes nothing; as many as there are runs are enough.
fn settle<K: Cost>(ds: &mut [Option<K>], view: &View<'_, K>)
    requires { view.now.junctions * 12 ≤ length ds.old }
    ensures { ds.new ≡ rounds K.Cost.kind (length view.now.runs.now) (round_arcs (length view.now.outlets.now) (open_runs view.now.runs.now view.now.«open».now)) ds.old }
{
    for _ in 0..view.runs.len() {
        if !round(ds, view) {
            return;
        }
    }
}

// Each outlet is at no cost from itself.
fn set_outlets<K: Cost>(ds: &mut [Option<K>], outlets: &[Junction])
    requires { (length outlets.now ≤ 12) × ((k : ℕ) → k < length outlets.now → slice_index outlets.now k * 12 + 12 ≤ length ds.old) }
    ensures { ds.new ≡ with_outlets K.Cost.kind (length outlets.now) outlets.now ds.old }
{
    for (j, outlet) in outlets.iter().enumerate() {
        ds[*outlet as usize * MOST_OUTLETS + j] = Some(K::zero());
    }
}

// The distances of a view, in the first places of a row, twelve for each junction.
pub(crate) fn measure<K: Cost>(row: &mut [Option<K>], view: &View<'_, K>)
    requires { view.now.junctions * 12 ≤ length row.old }
    ensures { take (view.now.junctions * 12) row.new ≡ table K.Cost.kind view.now.junctions view.now.runs.now view.now.«open».now (length view.now.outlets.now) view.now.outlets.now }
{
    let n = view.junctions as usize * MOST_OUTLETS;
    let ds = &mut row[0..n];
    ds.fill(None);
    set_outlets(ds, view.outlets);
    settle(ds, view);
}
