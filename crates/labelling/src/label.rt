// The labelling of a view, from nothing.
ghost use Rattle.std.specs.Prelude.{◌≡◌, ◌-◌, ◌^◌, ◌<◌, ◌≤◌, length, None, MatchResult};
ghost use Rattle.district.specs.Model.{layout_of};
ghost use Rattle.labelling.specs.Tables.{rule, codes, code_of, no_way};
ghost use Rattle.labelling.specs.Labelling.{labelled};
ghost use Rattle.labelling.specs.Questions.{room_answer, Asked};
ghost use Rattle.labelling.specs.Starts.{rule_of, size_of, wiped, blank, started, labelling, Within};
ghost use Rattle.labelling.specs.Desks.{tables_on, with_tables, places_on, lent, Fit, Kept};

use super::desk::Desk;
use super::kinds::{Back, Ending, Label, Place, Size, Way};
use super::size::room;
use district::view::View;
use estimate::Estimator;
use network::{Cost, Junction, Refusal};
use queue::Queue;

// The set of the outlet at the place i alone.
#[tactic(auto, using(std::proofs::lemmas::Nat::one_shl))]
fn bit(i: usize) -> u16
    requires { i < 16 }
    ensures { result ≡ 2 ^ i }
{
    1 << i
}

// (Labels and ways back are cleared by two functions: that a clone is the value is not known of any `Copy`.)
fn wipe_labels<K: Cost>(labels: &mut [Label<K>], count: usize)
    requires { count ≤ length labels.old }
    ensures { labels.new ≡ wiped count None labels.old }
{
    labels[..count].fill(None);
}

fn wipe_ways(ways: &mut [Way], count: usize)
    requires { count ≤ length ways.old }
    ensures { ways.new ≡ wiped count no_way ways.old }
{
    ways[..count].fill(Way {
        turn: 0,
        back: Back::Start,
    });
}

impl<'m, Q: Queue, E: Estimator<Cost = Q::Cost>> Desk<'m, Q, E> {
    // No label is reached, and none is settled.
    fn wipe(&mut self, size: Size)
        requires { codes size ≤ places_on self.old }
        ensures { self.new ≡ with_tables self.old (blank (rule Q.Cost.Cost.kind (E.bound self.old.estimator) size) (tables_on self.old)) }
    {
        let count = size.codes();
        wipe_labels(&mut *self.labels, count);
        wipe_ways(&mut *self.ways, count);
    }

    // Each outlet with its own place alone is reached at no cost.
    fn offer_starts(&mut self, size: Size, outlets: &[Junction])
        requires fit { Fit (rule Q.Cost.Cost.kind (E.bound self.old.estimator) size) Q.waiting Q.ok self.old }
        requires junctions { Within size.junctions outlets.now }
        requires few { length outlets.now < 16 }
        requires sets { size.sets ≡ 2 ^ length outlets.now }
        ensures kept { Kept (rule Q.Cost.Cost.kind (E.bound self.old.estimator) size) Q.waiting Q.ok Q.Queue.lender self.old self.new }
        ensures same { tables_on self.new ≡ started (rule Q.Cost.Cost.kind (E.bound self.old.estimator) size) 0 outlets.now (tables_on self.old) }
    {
        for (i, outlet) in outlets.iter().enumerate() {
            let to = Place {
                v: *outlet,
                set: bit(i),
                cost: Q::Cost::zero(),
            };
            self.offer(size, to, Back::Start);
        }
    }

    // The labelling from nothing, where there is room for every code.
    fn label_from(
        &mut self,
        size: Size,
        view: &View<'_, Q::Cost>,
        root: Junction,
        others: &[Junction],
        limit: u32,
    ) -> Ending<Q::Cost>
        requires few { length others.now < 16 }
        requires sets { size.sets ≡ 2 ^ length others.now }
        requires places { codes size ≤ places_on self.old }
        requires queue { codes size ≤ length (Q.waiting self.old.queue) }
        requires junctions { Within size.junctions others.now }
        requires sized { size ≡ size_of (layout_of view.now) }
        ensures kept { Kept (rule Q.Cost.Cost.kind (E.bound self.old.estimator) size) Q.waiting Q.ok Q.Queue.lender self.old self.new }
        ensures same { record { ending = result; left = tables_on self.new } ≡ labelled (rule Q.Cost.Cost.kind (E.bound self.old.estimator) size) view.now.«open».now view.now.runs.now (code_of size root (size.sets - 1)) limit 0 (started (rule Q.Cost.Cost.kind (E.bound self.old.estimator) size) 0 others.now (blank (rule Q.Cost.Cost.kind (E.bound self.old.estimator) size) (tables_on self.old))) }
    {
        self.queue.clear();
        self.wipe(size);
        self.offer_starts(size, others);
        let goal = size.code(root, size.sets - 1);
        self.take_turns(size, view, goal, limit)
    }

    // The labelling of a view, for an estimator that is prepared for it, whatever the rows and the queue held.
    // Refuses with 13, 14 or 15, and then leaves everything as found.
    pub fn label_view(
        &mut self,
        view: &View<'_, Q::Cost>,
        limit: u32,
    ) -> Result<Ending<Q::Cost>, Refusal>
        ensures asks { Asked (room_answer (layout_of view.now) (places_on self.old) (length (Q.waiting self.old.queue))) result }
        ensures lent { lent Q.Queue.lender Q.waiting self.new ≡ lent Q.Queue.lender Q.waiting self.old }
        ensures estimator { self.new.estimator ≡ self.old.estimator }
        ensures labels { MatchResult result
            (λ e. (record { ending = e; left = tables_on self.new } ≡ labelling Q.Cost.Cost.kind (E.bound self.old.estimator) (layout_of view.now) limit (tables_on self.old))
            × Fit (rule_of Q.Cost.Cost.kind (E.bound self.old.estimator) (layout_of view.now)) Q.waiting Q.ok self.new)
            (λ _. self.new ≡ self.old) }
    {
        let places = self.labels.len().min(self.ways.len());
        let size = room(view, places, self.queue.capacity())?;
        let outlets = view.outlets;
        Ok(self.label_from(size, view, outlets[0], &outlets[1..], limit))
    }
}
