// Costs as the text writes them.
ghost use Rattle.std.specs.Prelude.{◌≡◌, Some, Option};
ghost use Rattle.commands.specs.declared.command.Figure.{Figure};
ghost use Rattle.requests.specs.Attempts.{money_written, crossings_written};

use commands::Figure;
use network::{CrossingsFirst, Money};

// A kind of cost that a text can write. Not by TryFrom and From, since their clauses tie no cost to the figure that it was read from, and
// contracts above name `written`.
pub trait Figured {
    // The cost that a figure writes; none where it is a figure of another kind.
    ghost written: { Figure → Option Self };

    fn from_figure(figure: Figure) -> Option<Self>
        ensures { result ≡ written figure };

    fn to_figure(self) -> Figure
        ensures { written result ≡ Some self };
}

impl Figured for Money {
    ghost written = { money_written };

    fn from_figure(figure: Figure) -> Option<Money> {
        match figure {
            Figure::Money(amount) => Some(Money { amount }),
            Figure::Crossings(_, _) => None,
        }
    }

    fn to_figure(self) -> Figure {
        Figure::Money(self.amount)
    }
}

impl Figured for CrossingsFirst {
    ghost written = { crossings_written };

    fn from_figure(figure: Figure) -> Option<CrossingsFirst> {
        match figure {
            Figure::Money(_) => None,
            Figure::Crossings(crossings, money) => Some(CrossingsFirst { crossings, money }),
        }
    }

    fn to_figure(self) -> Figure {
        Figure::Crossings(self.crossings, self.money)
    }
}
