// The search: a labelling, and the drawing of its runs.
#![tactic(auto)]

mod answer;
mod draw;
pub mod plan;

pub use answer::{NoPlan, Plan};
