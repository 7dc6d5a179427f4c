// The methods of the queue over a row.
ghost use Rattle.std.specs.Prelude.{◌≡◌, [], ◌∷◌, length, replicate, None};
ghost use Rattle.queue.specs.Rows.{row_waits, row_lender};
ghost use Rattle.queue.specs.Waits.{better, lowered, Least};

use super::Row;
use crate::Queue;
use network::{Cost, Refusal};

impl<'a, K: Cost> Row<'a, K> {
    // A queue over `places`, whatever they held: nothing waits in it.
    pub fn over(places: &'a mut [Option<K>]) -> Row<'a, K>
        ensures lends { row_lender result ≡ places.entry.ghost_name ∷ [] }
        ensures waits { row_waits result ≡ replicate (length places.old) None }
    {
        places.fill(None);
        Row { places }
    }
}

// The better of the best so far and a cost at a later code.
fn pick<K: Cost>(best: Option<(K, usize)>, cost: K, code: usize) -> Option<(K, usize)>
    ensures { result ≡ better K.Cost.kind.below best cost code }
{
    best.filter(|(least, _)| !cost.is_below(*least))
        .or(Some((cost, code)))
}

// What waits at a code once `cost` is put there.
fn lower<K: Cost>(old: Option<K>, cost: K) -> Option<K>
    ensures { result ≡ lowered K.Cost.kind.below old cost }
{
    Some(old.map_or(cost, |waiting| waiting.lesser(cost)))
}

// The first least cost of all places.
fn scan<K: Cost>(places: &[Option<K>]) -> Option<(K, usize)>
    ensures { Least K.Cost.kind.below places.now result }
{
    let mut best = None;
    for (code, place) in places.iter().enumerate() {
        if let Some(cost) = *place {
            best = pick(best, cost, code);
        }
    }
    best
}

impl<'a, K: Cost> Queue for Row<'a, K> {
    type Cost = K;

    ghost waiting = { row_waits };

    ghost ok = { λ _. Unit {0} };

    ghost lender = { row_lender };

    fn capacity(&self) -> usize {
        self.places.len()
    }

    fn clear(&mut self) {
        self.places.fill(None);
    }

    fn put(&mut self, code: usize, cost: K) -> Result<(), Refusal> {
        // A write through a slice's `get_mut` would leave unsaid what the other places hold.
        if code < self.places.len() {
            self.places[code] = lower(self.places[code], cost);
            Ok(())
        } else {
            Err(Refusal::CodeBeyond)
        }
    }

    fn least(&self) -> Option<(K, usize)> {
        scan(self.places)
    }

    fn take(&mut self) -> Option<(K, usize)> {
        let found = (*self).least();
        if let Some((_, code)) = found {
            self.places[code] = None;
        }
        found
    }
}
