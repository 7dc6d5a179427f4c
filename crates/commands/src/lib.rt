// The program's text: what one line of it says.
#![tactic(auto)]

mod command;
mod figures;
mod parts;
mod read;

pub use command::{Call, Command, CostKind, EstimatorChoice, Figure, PlanWords, QueueChoice};
pub use lines::{Lines, next_line};
pub use read::read_line;
