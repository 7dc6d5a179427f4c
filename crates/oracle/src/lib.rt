// Solvers that share nothing with the library: a record kept by the rules, the cheapest network by every set of runs,
// the recurrence of Dreyfus and Wagner, and a plain labelling.
#![tactic(auto)]

pub mod costs;
pub mod kind;
pub mod members;
pub mod record;
pub mod said;
pub mod subsets;
pub mod survey;
pub mod table;
#[cfg(test)]
mod tests;
pub mod walk;
