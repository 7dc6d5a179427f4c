// The estimator that says the greater of what two others say.
ghost use Rattle.std.specs.Prelude.{◌≡◌, ◌&&◌, ◌++◌};
ghost use Rattle.network.specs.Costs.{greater};
ghost use Rattle.estimate.specs.Greater.{GreaterOf};

use crate::estimator::Estimator;
use district::view::View;
use network::{Cost, Junction, Refusal};

#[derive(Drop)]
pub struct Larger<A, B> {
    pub first: A,
    pub second: B,
}

impl<A: Estimator, B: Estimator<Cost = A::Cost>> Estimator for Larger<A, B> {
    type Cost = A::Cost;

    ghost bound = { λ s v I. greater A.Cost.Cost.kind (A.Estimator.bound s.first v I) (B.Estimator.bound s.second v I) };

    ghost within = { λ s n k. A.Estimator.within s.first n k && B.Estimator.within s.second n k };

    ghost makes = { λ l. GreaterOf A.Cost.Cost.kind (A.Estimator.makes l) (B.Estimator.makes l) };

    ghost lender = { λ s. A.Estimator.lender s.first ++ B.Estimator.lender s.second };

    fn fits(&self, junctions: usize, outlets: usize) -> bool {
        self.first.fits(junctions, outlets) && self.second.fits(junctions, outlets)
    }

    // Both are asked before either is prepared, so that a refusal leaves both as they were.
    fn prepare(&mut self, view: &View<'_, A::Cost>) -> Result<(), Refusal> {
        if !(*self).fits(view.junctions as usize, view.outlets.len()) {
            return Err(Refusal::EstimatorFit);
        }
        self.first.prepare(view)?;
        self.second.prepare(view)
    }

    fn estimate(&self, v: Junction, set: u16) -> A::Cost {
        let first = self.first.estimate(v, set);
        first.greater(self.second.estimate(v, set))
    }
}
