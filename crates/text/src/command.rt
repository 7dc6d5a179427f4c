// What a line can say to `duct`. The commands of `morning` are a type of their own: taken from it, these
// would have calls and choices that no line of `duct` reaches and that it would have to answer.

#[derive(Clone, Copy, PartialEq, Eq, Debug)]
pub enum Command {
    // A blank line, or a comment alone.
    Nothing,
    District { junctions: u64, capacity: u64 },
    Call(Call),
}

// What is asked of the district at hand.
#[derive(Clone, Copy, PartialEq, Eq, Debug)]
pub enum Call {
    Lay { a: u64, b: u64, cost: u64 },
    Mark { junction: u64 },
    Plan(PlanWords),
    Dug { cost: u64 },
}

// What a line says of a plan; none where it does not say it.
#[derive(Clone, Copy, PartialEq, Eq, Debug, Default)]
pub struct PlanWords {
    pub limit: Option<u64>,
    pub queue: Option<QueueChoice>,
    pub estimator: Option<EstimatorChoice>,
}

#[derive(Clone, Copy, PartialEq, Eq, Debug)]
pub enum QueueChoice {
    Row,
}

#[derive(Clone, Copy, PartialEq, Eq, Debug)]
pub enum EstimatorChoice {
    Silent,
}
