// What ends the trial with status 1.
ghost use Rattle.std.specs.Prelude.{◌≡◌, is_ok};

use std::alloc::{AllocError, AllocFailed};
use std::{fmt, io};

// What is not as it should be.
#[derive(Clone, Copy, Debug)]
pub enum Wrong {
    ATurnIsMissing,
    AWorkedExample,
    TheSevenJunctions,
    AMakingAtTheEdge,
    TheMakingOfADistrict,
    LayingAgain,
    ClosingAgain,
    MarkingAgain,
    TheCostOfALabel,
    TheSamePlanAtItsOwnLimit,
    OneTurnLess,
    TheFloorOfOneTurnLess,
    TheCountOfTurns,
    NoLabelWaits,
    TheCostOfAPlan,
    TheLawOfEstimators,
    TheBoundOfTheRoot,
    ABound,
    TheStar,
    TheRing,
    WorstClassThenMoney,
    APlanThatIsRefused,
    AByteOfTheRow,
    AByteBeyondTheRuns,
    TheCostOfTheRuns,
    TheRunsJoinTheOutlets,
    TheLeastCost,
    TheCountOfAPlan,
    TheTurnsOfAPlan,
    TheCountAtTheLimit,
    ALimitThatSuffices,
    TheFloor,
    TheRefusalOfAPlan,
    TheRowOfARefusedPlan,
    NoSetOfRunsJoinsTheOutlets,
    TheAnswerOfACall,
    BothQueues,
    TheMaking,
    ATurnOfNoDistrict,
    ACallThatIsTaken,
}

impl fmt::Display for Wrong {
    fn fmt<W: fmt::Write>(&self, f: &mut fmt::Formatter<W>) -> fmt::Result {
        match self {
            Wrong::ATurnIsMissing => write!(f, "a turn is missing"),
            Wrong::AWorkedExample => write!(f, "a worked example"),
            Wrong::TheSevenJunctions => write!(f, "the seven junctions"),
            Wrong::AMakingAtTheEdge => write!(f, "a making at the edge"),
            Wrong::TheMakingOfADistrict => write!(f, "the making of a district"),
            Wrong::LayingAgain => write!(f, "laying again"),
            Wrong::ClosingAgain => write!(f, "closing again"),
            Wrong::MarkingAgain => write!(f, "marking again"),
            Wrong::TheCostOfALabel => write!(f, "the cost of a label"),
            Wrong::TheSamePlanAtItsOwnLimit => write!(f, "the same plan at its own limit"),
            Wrong::OneTurnLess => write!(f, "one turn less"),
            Wrong::TheFloorOfOneTurnLess => write!(f, "the floor of one turn less"),
            Wrong::TheCountOfTurns => write!(f, "the count of turns"),
            Wrong::NoLabelWaits => write!(f, "no label waits"),
            Wrong::TheCostOfAPlan => write!(f, "the cost of a plan"),
            Wrong::TheLawOfEstimators => write!(f, "the law of estimators"),
            Wrong::TheBoundOfTheRoot => write!(f, "the bound of the root"),
            Wrong::ABound => write!(f, "a bound"),
            Wrong::TheStar => write!(f, "the star"),
            Wrong::TheRing => write!(f, "the ring"),
            Wrong::WorstClassThenMoney => write!(f, "worst class, then money"),
            Wrong::APlanThatIsRefused => write!(f, "a plan that is refused"),
            Wrong::AByteOfTheRow => write!(f, "a byte of the row"),
            Wrong::AByteBeyondTheRuns => write!(f, "a byte beyond the runs"),
            Wrong::TheCostOfTheRuns => write!(f, "the cost of the runs"),
            Wrong::TheRunsJoinTheOutlets => write!(f, "the runs join the outlets"),
            Wrong::TheLeastCost => write!(f, "the least cost"),
            Wrong::TheCountOfAPlan => write!(f, "the count of a plan"),
            Wrong::TheTurnsOfAPlan => write!(f, "the turns of a plan"),
            Wrong::TheCountAtTheLimit => write!(f, "the count at the limit"),
            Wrong::ALimitThatSuffices => write!(f, "a limit that suffices"),
            Wrong::TheFloor => write!(f, "the floor"),
            Wrong::TheRefusalOfAPlan => write!(f, "the refusal of a plan"),
            Wrong::TheRowOfARefusedPlan => write!(f, "the row of a refused plan"),
            Wrong::NoSetOfRunsJoinsTheOutlets => write!(f, "no set of runs joins the outlets"),
            Wrong::TheAnswerOfACall => write!(f, "the answer of a call"),
            Wrong::BothQueues => write!(f, "both queues"),
            Wrong::TheMaking => write!(f, "the making"),
            Wrong::ATurnOfNoDistrict => write!(f, "a turn of no district"),
            Wrong::ACallThatIsTaken => write!(f, "a call that is taken"),
        }
    }
}

#[derive(Debug, Drop)]
pub enum Fault {
    Memory,
    Output,
    Wrong(Wrong),
}

impl From<Wrong> for Fault {
    fn from(what: Wrong) -> Fault {
        Fault::Wrong(what)
    }
}

impl From<AllocError> for Fault {
    fn from(_e: AllocError) -> Fault {
        Fault::Memory
    }
}

impl<T: Drop> From<AllocFailed<T>> for Fault {
    fn from(_e: AllocFailed<T>) -> Fault {
        Fault::Memory
    }
}

impl From<io::Error> for Fault {
    fn from(_e: io::Error) -> Fault {
        Fault::Output
    }
}

// `what` is wrong unless it is `right`.
pub fn hold(right: bool, what: Wrong) -> Result<(), Fault>
    ensures { is_ok result ≡ right }
{
    if right {
        Ok(())
    } else {
        Err(Fault::Wrong(what))
    }
}
