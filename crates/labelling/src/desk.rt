// A desk: what a search is lent, and the small steps on it.
ghost use Rattle.std.specs.Prelude.{◌≡◌, ◌<◌, length, unwrap_or};
ghost use Rattle.labelling.specs.Tables.{label_at};
ghost use Rattle.labelling.specs.Offers.{written};
ghost use Rattle.labelling.specs.Turns.{settled};
ghost use Rattle.labelling.specs.Desks.{tables_on, with_tables};

use super::kinds::{Back, Label, Way};
use estimate::Estimator;
use network::Cost;
use queue::Queue;

// What a search is lent: rows for labels and their ways back, a queue, and an estimator. Either of the last two may
// be lent as a `&mut`. Its rows and its queue may hold anything before a search, so that they fit is a clause of each step
// (`Fit`, `Kept`), and no field.
#[derive(Drop)]
pub struct Desk<'m, Q: Queue, E> {
    // Two rows, and not one of pairs: drawing reads the ways back alone, which hold no costs.
    pub labels: &'m mut [Label<Q::Cost>],
    pub ways: &'m mut [Way],
    pub queue: Q,
    pub estimator: E,
}

impl<'m, Q: Queue, E: Estimator<Cost = Q::Cost>> Desk<'m, Q, E> {
    // What the label at a code costs; zero where none is reached.
    pub fn cost_of(&self, code: usize) -> Q::Cost
        ensures { result ≡ unwrap_or (label_at (tables_on self.now) code) Q.Cost.Cost.kind.zero }
    {
        self.labels
            .get(code)
            .copied()
            .flatten()
            .unwrap_or(Q::Cost::zero())
    }

    // The same of a code that has a place in the row, which is not tested again.
    pub(crate) fn cost_at(&self, code: usize) -> Q::Cost
        requires { code < length self.now.labels.now }
        ensures { result ≡ unwrap_or (label_at (tables_on self.now) code) Q.Cost.Cost.kind.zero }
    {
        self.labels[code].unwrap_or(Q::Cost::zero())
    }

    // The label at a code is reached at the cost, with its way back.
    pub(crate) fn write(&mut self, code: usize, cost: Q::Cost, back: Back)
        requires { (code < length self.old.labels.now) × (code < length self.old.ways.now) }
        ensures { self.new ≡ with_tables self.old (written (tables_on self.old) code cost back) }
    {
        self.labels[code] = Some(cost);
        self.ways[code] = Way { turn: 0, back };
    }

    // Notes the turn in which a code was settled.
    pub(crate) fn settle(&mut self, code: usize, turn: u32)
        requires { code < length self.old.ways.now }
        ensures { self.new ≡ with_tables self.old (settled (tables_on self.old) code turn) }
    {
        self.ways[code].turn = turn;
    }
}
