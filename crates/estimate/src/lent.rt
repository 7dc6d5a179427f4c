// An estimator that is lent: `&mut E` where an estimator is asked for.
ghost use Rattle.std.specs.Prelude.{◌≡◌, ◌∷◌};

use crate::estimator::Estimator;
use district::view::View;
use network::{Junction, Refusal};

impl<'a, E: Estimator> Estimator for &'a mut E {
    type Cost = E::Cost;

    ghost bound = { λ s. E.Estimator.bound s.now };

    ghost within = { λ s. E.Estimator.within s.now };

    ghost makes = { E.Estimator.makes };

    ghost lender = { λ s. s.ghost_name ∷ E.Estimator.lender s.now };

    fn fits(&self, junctions: usize, outlets: usize) -> bool {
        (**self).fits(junctions, outlets)
    }

    fn prepare(&mut self, view: &View<'_, E::Cost>) -> Result<(), Refusal> {
        (**self).prepare(view)
    }

    fn estimate(&self, v: Junction, set: u16) -> E::Cost {
        (**self).estimate(v, set)
    }
}
