// What a plan answers.
ghost use Rattle.std.specs.Prelude.{◌≡◌};
ghost use Rattle.search.specs.Answers.{number_of, text_of};

use network::{Cost, Refusal};
use std::fmt;

// A cheapest network: its cost, and how many turns the search took.
#[derive(Clone, Copy, Debug, PartialEq, Eq)]
pub struct Plan<K> {
    pub cost: K,
    pub count: u32,
}

#[derive(Clone, Copy, Debug, PartialEq, Eq)]
pub enum NoPlan<K> {
    // A question was answered "no" before the search.
    Refused(Refusal),
    // No label waits after so many turns: the outlets cannot be joined.
    Unjoined(u32),
    // So many turns were allowed, and the least key that waits is a floor under the price.
    Stopped(u32, K),
}

impl<K: Cost> NoPlan<K> {
    // The number of the question that was answered "no".
    pub fn number(self) -> u8
        ensures { result ≡ number_of self }
    {
        match self {
            NoPlan::Refused(why) => why.number(),
            NoPlan::Unjoined(_) => 18,
            NoPlan::Stopped(_, _) => 19,
        }
    }
}

impl<K> From<Refusal> for NoPlan<K> {
    ghost use Rattle.search.specs.declared.answer.NoPlan.TheVariants.{Refused};

    ghost from_gives = { λ why e. e ≡ Refused why };

    fn from(why: Refusal) -> NoPlan<K> {
        NoPlan::Refused(why)
    }
}

// The number, and what goes with it.
impl<K: fmt::Display> fmt::Display for NoPlan<K> {
    ghost output = { text_of K.output };

    fn fmt<W: fmt::Write>(&self, f: &mut fmt::Formatter<W>) -> fmt::Result {
        match self {
            NoPlan::Refused(why) => write!(f, "{why}"),
            NoPlan::Unjoined(count) => write!(f, "refused 18, count {count}"),
            NoPlan::Stopped(count, floor) => {
                write!(f, "refused 19, count {count}, floor {floor}")
            }
        }
    }
}
