// What the two programs share: the text that they are given, what ends them, and how they write a row of runs.
#![tactic(auto)]

mod fault;
mod input;
mod marked;
mod program;

pub use fault::Fault;
pub use marked::Marked;
pub use program::{TextProgram, run};
