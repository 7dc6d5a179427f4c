// An estimator that is lent for reading: `&E` where an estimator is asked for.
ghost use Rattle.std.specs.Prelude.{◌≡◌, false};

use crate::estimator::Estimator;
use district::view::View;
use network::{Junction, Refusal};

// It says what the estimator says. It cannot be prepared, so it fits nothing.
impl<'a, E: Estimator> Estimator for &'a E {
    type Cost = E::Cost;

    ghost bound = { λ s. E.Estimator.bound s.now };

    ghost within = { λ _ _ _. false };

    ghost makes = { E.Estimator.makes };

    ghost lender = { λ s. E.Estimator.lender s.now };

    fn fits(&self, _junctions: usize, _outlets: usize) -> bool {
        false
    }

    fn prepare(&mut self, _view: &View<'_, E::Cost>) -> Result<(), Refusal> {
        Err(Refusal::EstimatorFit)
    }

    fn estimate(&self, v: Junction, set: u16) -> E::Cost {
        (**self).estimate(v, set)
    }
}
