// Crossings of roads first, and money among equals: two whole numbers, of which the larger is the bulk.
ghost use Rattle.network.specs.Crossings.{crossings_kind};
ghost use Rattle.network.specs.CrossingsFirsts.{crossings_laws};

use crate::cost::Cost;
use crate::money::can_add;
use std::fmt;

#[derive(Clone, Copy, Debug, PartialEq, Eq, PartialOrd, Ord)]
pub struct CrossingsFirst {
    pub crossings: u64,
    pub money: u64,
}

impl Cost for CrossingsFirst {
    ghost kind = { crossings_kind };

    ghost laws = { crossings_laws };

    fn zero() -> CrossingsFirst {
        CrossingsFirst {
            crossings: 0,
            money: 0,
        }
    }

    fn sum(self, other: CrossingsFirst) -> Option<CrossingsFirst> {
        if can_add(self.bulk(), other.bulk()) {
            Some(CrossingsFirst {
                crossings: self.crossings + other.crossings,
                money: self.money + other.money,
            })
        } else {
            None
        }
    }

    fn is_below(self, other: CrossingsFirst) -> bool {
        self < other
    }

    fn bulk(self) -> u64 {
        self.crossings.max(self.money)
    }
}

impl fmt::Display for CrossingsFirst {
    ghost use Rattle.std.specs.Prelude.{Some};
    ghost use Rattle.network.specs.Texts.{crossings_text};

    ghost output = { λ cost. Some (crossings_text cost) };

    fn fmt<W: fmt::Write>(&self, f: &mut fmt::Formatter<W>) -> fmt::Result {
        write!(f, "{}+{}", self.crossings, self.money)
    }
}
