// The kinds of cost, made from two numbers and read as two.
ghost use Rattle.std.specs.Prelude.{◌≡◌, ℕ};

use network::{Cost, CrossingsFirst, Money};

// (`From` both ways would want an impl of two traits for each kind, and says nothing plainer.)
pub trait Kind: Cost {
    // Crossings and money.
    ghost pair: { Self → ℕ × ℕ };

    // Of crossings and money what this kind has.
    fn of(crossings: u64, money: u64) -> Self
        ensures { (pair result).1 ≡ money };

    // Crossings and money; no crossings where this kind has none.
    fn parts(self) -> (u64, u64)
        ensures { result ≡ pair self };
}

impl Kind for Money {
    ghost pair = { λ k. (0, k.amount) };

    fn of(_crossings: u64, money: u64) -> Money {
        Money { amount: money }
    }

    fn parts(self) -> (u64, u64) {
        (0, self.amount)
    }
}

impl Kind for CrossingsFirst {
    ghost pair = { λ k. (k.crossings, k.money) };

    fn of(crossings: u64, money: u64) -> CrossingsFirst {
        CrossingsFirst { crossings, money }
    }

    fn parts(self) -> (u64, u64) {
        (self.crossings, self.money)
    }
}
