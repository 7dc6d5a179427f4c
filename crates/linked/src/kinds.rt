// What crosses to C and back.
ghost use Rattle.std.specs.Prelude.{◌≡◌};
ghost use Rattle.linked.specs.Lists.{found_of};

use crate::unsolved::Unsolved;
use network::Money;
use search::{NoPlan, Plan};

// A run to lay.
#[repr(C)]
#[derive(Clone, Copy)]
pub struct Street {
    pub a: u64,
    pub b: u64,
    pub cost: u64,
}

// What a plan found: number 0 with its cost and count, or the number of a refusal with what it carries, zeroes where it
// carries nothing. A floor stands as the cost. Number 4,294,967,295 says that there was not enough memory: a C struct
// has no variants.
#[repr(C)]
#[derive(Clone, Copy)]
pub struct Found {
    pub cost: u64,
    pub count: u32,
    pub number: u32,
}

impl From<Result<Plan<Money>, Unsolved>> for Found {
    ghost from_gives = { λ said found. found ≡ found_of said };

    fn from(said: Result<Plan<Money>, Unsolved>) -> Found {
        let (cost, count, number) = match said {
            Ok(plan) => (plan.cost.amount, plan.count, 0),
            Err(Unsolved::Memory) => (0, 0, u32::MAX),
            Err(Unsolved::NoPlan(why)) => {
                let number = why.number() as u32;
                match why {
                    NoPlan::Refused(_) => (0, 0, number),
                    NoPlan::Unjoined(count) => (0, count, number),
                    NoPlan::Stopped(count, floor) => (floor.amount, count, number),
                }
            }
        };
        Found {
            cost,
            count,
            number,
        }
    }
}
