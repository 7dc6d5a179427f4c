// An estimator: from a junction and the outlets already reached, at least what is still to be paid.
ghost use Rattle.std.specs.Prelude.{◌≡◌, ℕ, Bool, List, length, Ok, Err};
ghost use Rattle.network.specs.declared.refusal.Refusal.TheVariants.{EstimatorFit};
ghost use Rattle.network.specs.Layouts.{Layout};
ghost use Rattle.district.specs.Model.{layout_of};
ghost use Rattle.estimate.specs.Estimates.{prepare_answer, Prepared};

use district::view::View;
use network::{Cost, Junction, Refusal};

pub trait Estimator {
    type Cost: Cost;

    // The bound E(v, I), for a junction v and a set I of outlets already reached.
    ghost bound: { Self → ℕ → ℕ → Self.Cost };

    // Whether so many junctions and outlets are within its capacity.
    ghost within: { Self → ℕ → ℕ → Bool };

    // What `prepare` may make of a district: one bound, where the estimator leaves no freedom.
    ghost makes: { Layout Self.Cost → (ℕ → ℕ → Self.Cost) → Type 0 };

    // The rows that the estimator was lent, if any.
    ghost lender: { Self → List ℕ };

    fn fits(&self, junctions: usize, outlets: usize) -> bool
        ensures { result ≡ within self.now junctions outlets };

    // Makes the bound lawful for a district that fits; nothing of an earlier district is kept.
    // Otherwise it refuses with 16 and keeps the bound that it had.
    fn prepare(&mut self, view: &View<'_, Self::Cost>) -> Result<(), Refusal>
        ensures answers { result ≡ prepare_answer (within self.old) (layout_of view.now) }
        ensures lends { lender self.new ≡ lender self.old }
        ensures room { within self.new ≡ within self.old }
        ensures keeps { result ≡ Err EstimatorFit → bound self.new ≡ bound self.old }
        ensures made { result ≡ Ok tt → makes (layout_of view.now) (bound self.new) }
        ensures lawful { result ≡ Ok tt → Prepared Self.Cost.Cost.kind (layout_of view.now) (bound self.new) };

    // E(v, I), or zero for a junction or a set that the prepared district lacks.
    fn estimate(&self, v: Junction, set: u16) -> Self::Cost
        ensures { result ≡ bound self.now v set };
}
