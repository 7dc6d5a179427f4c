// A sequence of calls on one district, tried one after another.
#![tactic(auto)]

mod attempt;
mod sequence;
mod turn;

pub use sequence::replay;
pub use turn::{Allowance, Call, Reply, Turn};
