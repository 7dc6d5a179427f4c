// With what a plan is made: a queue and an estimator.
ghost use Rattle.std.specs.Prelude.{◌≡◌};
ghost use Rattle.requests.specs.Tools.{same_tools, tools_of};

use commands::{EstimatorChoice, PlanWords, QueueChoice};

#[derive(Clone, Copy, PartialEq, Eq)]
pub struct Tools {
    pub queue: QueueChoice,
    pub estimator: EstimatorChoice,
}

impl Tools {
    // (`==`, under the name that a contract and an edit know.)
    pub fn is_same(self, other: Tools) -> bool
        ensures { result ≡ same_tools self other }
    {
        self == other
    }

    // What a plan's line names: heap and farthest where it names nothing.
    pub fn named(said: PlanWords) -> Tools
        ensures { result ≡ tools_of said }
    {
        Tools {
            queue: said.queue.unwrap_or(QueueChoice::Heap),
            estimator: said.estimator.unwrap_or(EstimatorChoice::Farthest),
        }
    }
}
