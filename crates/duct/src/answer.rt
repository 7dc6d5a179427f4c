// What the program answers.
use console::Marked;
use network::{Money, Refusal};
use search::NoPlan;
use std::fmt;

#[derive(Drop)]
pub enum Answer {
    Made { junctions: u64, capacity: u64 },
    Laid(u16),
    Marked(u64),
    // A plan's cost, a byte for each run laid, and its turns.
    Planned { cost: u64, row: Vec<u8>, count: u32 },
    Unplanned(NoPlan<Money>),
    Refused(Refusal),
    Agrees(u64),
    Differs { cost: u64, planned: u64 },
    NotPlanned(u64),
}

impl fmt::Display for Answer {
    fn fmt<W: fmt::Write>(&self, f: &mut fmt::Formatter<W>) -> fmt::Result {
        match self {
            Answer::Made {
                junctions,
                capacity,
            } => write!(
                f,
                "district: {junctions} junctions, room for {capacity} runs"
            ),
            Answer::Laid(run) => write!(f, "run {run}"),
            Answer::Marked(junction) => write!(f, "marked {junction}"),
            Answer::Planned { cost, row, count } => {
                let runs = Marked { row };
                write!(f, "cost {cost}, runs{runs}, count {count}")
            }
            Answer::Unplanned(why) => write!(f, "{why}"),
            Answer::Refused(why) => write!(f, "{why}"),
            Answer::Agrees(cost) => write!(f, "dug {cost}: agrees"),
            Answer::Differs { cost, planned } => {
                write!(f, "dug {cost}: differs, planned {planned}")
            }
            Answer::NotPlanned(cost) => write!(f, "dug {cost}: not planned"),
        }
    }
}
