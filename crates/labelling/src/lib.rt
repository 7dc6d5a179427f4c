// The labelling: candidates for labels, one turn, and the turns within a limit.
#![tactic(auto)]

pub mod desk;
mod forks;
pub mod kinds;
pub mod label;
mod limit;
mod offer;
mod runs;
pub mod size;
mod turns;

pub use desk::Desk;
pub use kinds::{Back, Ending, Label, Outcome, Size, Way};
pub use size::room;
