// Costs as they are written: `C`, or `X+M`.
ghost use Rattle.std.specs.Prelude.{◌≡◌};
ghost use Rattle.commands.specs.Figures.{figure_of, money_of, crossings_of};

use crate::command::Figure;
use lines::{number, split_once};

fn money(amount: Option<u64>) -> Option<Figure>
    ensures { result ≡ money_of amount }
{
    Some(Figure::Money(amount?))
}

fn crossings(crossings: Option<u64>, money: Option<u64>) -> Option<Figure>
    ensures { result ≡ crossings_of crossings money }
{
    Some(Figure::Crossings(crossings?, money?))
}

// The cost that a word says.
pub(crate) fn figure(word: &[u8]) -> Option<Figure>
    ensures { result ≡ figure_of word.now }
{
    match split_once(word, b'+') {
        None => money(number(word)),
        Some((first, second)) => crossings(number(first), number(second)),
    }
}
