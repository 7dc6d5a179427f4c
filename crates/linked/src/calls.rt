// The calls of a list, tried one after the other. A refused call changes nothing, and the next is tried all the same.
ghost use Rattle.std.specs.Prelude.{◌≡◌};
ghost use Rattle.district.specs.Model.{model_of};
ghost use Rattle.linked.specs.Lists.{all_laid, all_marked};

use crate::kinds::Street;
use district::district::District;
use network::Money;

pub(crate) fn lay_all(district: &mut District<Money>, streets: &[Street])
    ensures { model_of district.new ≡ all_laid streets.now (model_of district.old) }
{
    for street in streets {
        let cost = Money {
            amount: street.cost,
        };
        let _ = district.lay(street.a, street.b, cost);
    }
}

pub(crate) fn mark_all(district: &mut District<Money>, outlets: &[u64])
    ensures { model_of district.new ≡ all_marked outlets.now (model_of district.old) }
{
    for outlet in outlets {
        let _ = district.mark(*outlet);
    }
}
