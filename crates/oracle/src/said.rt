// What an answer says, apart from the library's own types.
ghost use Rattle.std.specs.Prelude.{◌≡◌, MatchResult};
ghost use Rattle.oracle.specs.Answers.{question_of, turns_of, cost_of};
ghost use Rattle.oracle.specs.declared.said.Said.TheVariants.{Done, Laid, Refused};

use crate::costs::bit;
use crate::kind::Kind;
use crate::record::Fails;

// A cost as it is written, in any kind.
#[derive(Clone, Copy, PartialEq, Eq)]
pub struct Figure {
    pub crossings: u64,
    pub money: u64,
}

impl Figure {
    pub fn of<K: Kind>(cost: K) -> Figure
        ensures { result ≡ record { crossings = (K.pair cost).0; money = (K.pair cost).1 } }
    {
        let (crossings, money) = cost.parts();
        Figure { crossings, money }
    }

    pub fn cost<K: Kind>(self) -> K
        ensures { (K.pair result).1 ≡ self.money }
    {
        K::of(self.crossings, self.money)
    }
}

// One enum, and no option of a result: an answer is compared whole.
#[derive(Clone, Copy, PartialEq, Eq)]
pub enum Said {
    // Nothing was tried.
    Untried,
    Done,
    // The number of the run laid.
    Laid(usize),
    Refused(Fails),
    // The turns of a plan, its cost, and its runs: bit r tells whether run r is dug.
    Planned(u32, Figure, usize),
    // No label waits after so many turns.
    Unjoined(u32),
    // Stopped after so many turns, with a floor.
    Stopped(u32, Figure),
}

impl Said {
    // The question that was failed.
    pub fn fails(self) -> Option<Fails>
        ensures { result ≡ question_of self }
    {
        match self {
            Said::Refused(fails) => Some(fails),
            Said::Unjoined(_) => Some(Fails::NoLabelWaits),
            Said::Stopped(_, _) => Some(Fails::LimitReached),
            Said::Untried | Said::Done | Said::Laid(_) | Said::Planned(_, _, _) => None,
        }
    }

    // How many turns a plan took.
    pub fn turns(self) -> Option<u32>
        ensures { result ≡ turns_of self }
    {
        match self {
            Said::Planned(turns, _, _) | Said::Unjoined(turns) | Said::Stopped(turns, _) => {
                Some(turns)
            }
            Said::Untried | Said::Done | Said::Laid(_) | Said::Refused(_) => None,
        }
    }

    // What a plan costs that was found.
    pub fn cost(self) -> Option<Figure>
        ensures { result ≡ cost_of self }
    {
        match self {
            Said::Planned(_, cost, _) => Some(cost),
            _ => None,
        }
    }
}

impl From<Result<usize, Fails>> for Said {
    ghost from_gives = { λ laid said. MatchResult laid (λ run. said ≡ Laid run) (λ fails. said ≡ Refused fails) };

    fn from(laid: Result<usize, Fails>) -> Said {
        match laid {
            Ok(run) => Said::Laid(run),
            Err(fails) => Said::Refused(fails),
        }
    }
}

impl From<Result<(), Fails>> for Said {
    ghost from_gives = { λ done said. MatchResult done (λ _. said ≡ Done) (λ fails. said ≡ Refused fails) };

    fn from(done: Result<(), Fails>) -> Said {
        match done {
            Ok(()) => Said::Done,
            Err(fails) => Said::Refused(fails),
        }
    }
}

// The runs that a row marks.
pub fn dug(row: &[u8]) -> usize {
    row.iter()
        .enumerate()
        .filter(|(_, mark)| **mark == 1)
        .fold(0, |runs, (i, _)| runs | bit(i))
}
