// The calls on an estimator by the farthest outlet.
ghost use Rattle.std.specs.Prelude.{◌≡◌, ℕ, ◌+◌, ◌*◌, ◌≤◌, [], ◌∷◌, length, None, slice_index_or};
ghost use Rattle.std.specs.Option.{unwrap_or};
ghost use Rattle.network.specs.Costs.{greater};
ghost use Rattle.farthest.specs.Distances.{in_set, farthest, Far};
ghost use Rattle.farthest.specs.Memories.{in_row, bound_of, has_room, room_for, lender_of};

use super::Farthest;
use crate::settle::measure;
use district::district::MOST_OUTLETS;
use district::view::View;
use estimate::Estimator;
use network::{Cost, Junction, Refusal};

impl<'m, K: Cost> Farthest<'m, K> {
    // A bound of zero, over the places that `distances` has.
    pub fn over(distances: &'m mut [Option<K>]) -> Farthest<'m, K>
        ensures lends { lender_of result ≡ distances.entry.ghost_name ∷ [] }
        ensures room { room_for result ≡ has_room (length distances.old) }
        ensures bound { (v I : ℕ) → bound_of K.Cost.kind result v I ≡ K.Cost.kind.zero }
    {
        Farthest {
            distances,
            junctions: 0,
            outlets: 0,
        }
    }
}

// What stands at a place, and nothing past the end.
fn place_at<K: Cost>(ds: &[Option<K>], at: usize) -> Option<K>
    ensures { result ≡ slice_index_or ds.now at None }
{
    ds.get(at).copied().flatten()
}

// The greater of a cost and of what stands at a place.
fn greater_of<K: Cost>(best: K, place: Option<K>) -> K
    ensures { result ≡ greater K.Cost.kind best (unwrap_or place K.Cost.kind.zero) }
{
    place.map_or(best, |cost| best.greater(cost))
}

// Whether `set` has the j-th outlet: the root is in no set.
fn is_in(set: u16, j: usize) -> bool
    requires { j ≤ 12 }
    ensures { result ≡ in_set set j }
{
    j > 0 && (set >> (j - 1)) % 2 == 1
}

// The greatest distance from `v` to one of the outlets that `set` lacks.
fn look<K: Cost>(ds: &[Option<K>], v: Junction, set: u16, outlets: usize) -> K
    requires { outlets ≤ 12 }
    ensures { result ≡ farthest K.Cost.kind (in_row ds.now) v set outlets }
{
    let mut best = K::zero();
    // By the number, which names both the place and the bit of the set.
    for j in 0..outlets {
        if !is_in(set, j) {
            best = greater_of(best, place_at(ds, v as usize * MOST_OUTLETS + j));
        }
    }
    best
}

impl<'m, K: Cost> Estimator for Farthest<'m, K> {
    type Cost = K;

    ghost bound = { bound_of K.Cost.kind };

    ghost within = { room_for };

    ghost makes = { Far K.Cost.kind };

    ghost lender = { lender_of };

    fn fits(&self, junctions: usize, outlets: usize) -> bool {
        junctions <= self.distances.len() / MOST_OUTLETS && outlets <= MOST_OUTLETS
    }

    fn prepare(&mut self, view: &View<'_, K>) -> Result<(), Refusal> {
        if !(*self).fits(view.junctions as usize, view.outlets.len()) {
            return Err(Refusal::EstimatorFit);
        }
        self.junctions = view.junctions;
        self.outlets = view.outlets.len();
        measure(self.distances, view);
        Ok(())
    }

    fn estimate(&self, v: Junction, set: u16) -> K {
        let outlets = self.outlets;
        if v >= self.junctions || outlets == 0 || set >= 1 << (outlets - 1) {
            return K::zero();
        }
        look(&*self.distances, v, set, outlets)
    }
}
