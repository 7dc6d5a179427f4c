// The estimator that always says zero, and fits every district.
ghost use Rattle.std.specs.Prelude.{◌≡◌, true, []};
ghost use Rattle.estimate.specs.Estimates.{silent_bound, Silence};

use crate::estimator::Estimator;
use district::view::View;
use network::{Cost, Junction, Refusal};
use std::marker::PhantomData;

#[derive(Drop)]
pub struct Silent<K> {
    kind: PhantomData<K>,
}

impl<K: Cost> Silent<K> {
    // There is one such estimator for each kind of cost.
    pub fn new() -> Silent<K>
        ensures { (s : _) → s ≡ result }
    {
        Silent { kind: PhantomData }
    }
}

impl<K: Cost> Estimator for Silent<K> {
    type Cost = K;

    ghost bound = { λ _. silent_bound K.Cost.kind };

    ghost within = { λ _ _ _. true };

    ghost makes = { λ _. Silence K.Cost.kind };

    ghost lender = { λ _. [] };

    fn fits(&self, _junctions: usize, _outlets: usize) -> bool {
        true
    }

    fn prepare(&mut self, _view: &View<'_, K>) -> Result<(), Refusal> {
        Ok(())
    }

    fn estimate(&self, _v: Junction, _set: u16) -> K {
        K::zero()
    }
}
