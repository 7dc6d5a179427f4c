// What every other crate speaks of: kinds of cost, runs of trench, and the numbers of refusals.
#![tactic(auto)]

pub mod cost;
pub mod crossings;
pub mod money;
pub mod refusal;
pub mod run;
#[cfg(test)]
mod tests;

pub use cost::Cost;
pub use crossings::CrossingsFirst;
pub use money::Money;
pub use refusal::Refusal;
pub use run::{Junction, Run, RunNumber};
