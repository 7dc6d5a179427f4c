// Why there is no plan.
ghost use Rattle.std.specs.Prelude.{◌≡◌};
ghost use Rattle.search.specs.declared.answer.NoPlan.TheVariants.{Refused};
ghost use Rattle.linked.specs.declared.unsolved.Unsolved.TheVariants.{Memory, NoPlan};

use district::district::Unmade;
use network::Money;
use search::NoPlan;
use std::alloc::AllocError;

#[derive(Clone, Copy)]
pub enum Unsolved {
    // There was not enough memory, and nothing was planned.
    Memory,
    NoPlan(NoPlan<Money>),
}

impl From<AllocError> for Unsolved {
    ghost from_gives = { λ _ why. why ≡ Memory };

    fn from(_missing: AllocError) -> Unsolved {
        Unsolved::Memory
    }
}

impl From<NoPlan<Money>> for Unsolved {
    ghost from_gives = { λ no_plan why. why ≡ NoPlan no_plan };

    fn from(no_plan: NoPlan<Money>) -> Unsolved {
        Unsolved::NoPlan(no_plan)
    }
}

impl From<Unmade<Money>> for Unsolved {
    ghost from_gives = { λ unmade why. why ≡ NoPlan (Refused unmade.why) };

    fn from(unmade: Unmade<Money>) -> Unsolved {
        Unsolved::NoPlan(NoPlan::Refused(unmade.why))
    }
}
