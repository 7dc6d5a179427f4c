// Money: a whole number, which is its own bulk.
ghost use Rattle.std.specs.Prelude.{◌≡◌, ◌+◌, ◌^◌, nat_le};
ghost use Rattle.network.specs.Money.{money_kind};
ghost use Rattle.network.specs.Moneys.{money_laws};

use crate::cost::Cost;
use std::fmt;

// The most that the bulks of two costs may add to.
const MOST_BULK: u64 = 1 << 50;

#[derive(Clone, Copy, Debug, PartialEq, Eq, PartialOrd, Ord)]
pub struct Money {
    pub amount: u64,
}

// Whether two costs of these bulks have a sum.
pub(crate) fn can_add(a: u64, b: u64) -> bool
    ensures { result ≡ nat_le (a + b) (2 ^ 50) }
{
    // By `saturating_add` a plan takes 5% longer.
    a <= MOST_BULK && b <= MOST_BULK - a
}

impl Cost for Money {
    ghost kind = { money_kind };

    ghost laws = { money_laws };

    fn zero() -> Money {
        Money { amount: 0 }
    }

    fn sum(self, other: Money) -> Option<Money> {
        if can_add(self.amount, other.amount) {
            Some(Money {
                amount: self.amount + other.amount,
            })
        } else {
            None
        }
    }

    fn is_below(self, other: Money) -> bool {
        // The amounts, and not `self < other`, by which a plan takes 8% longer.
        self.amount < other.amount
    }

    fn bulk(self) -> u64 {
        self.amount
    }
}

impl fmt::Display for Money {
    ghost use Rattle.std.specs.Prelude.{Some};
    ghost use Rattle.network.specs.Texts.{money_text};

    ghost output = { λ money. Some (money_text money) };

    fn fmt<W: fmt::Write>(&self, f: &mut fmt::Formatter<W>) -> fmt::Result {
        write!(f, "{}", self.amount)
    }
}
