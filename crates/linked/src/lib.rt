// A plan of a district in money, by the heap and the farthest outlet, for C to link.
#![tactic(auto)]

mod calls;
pub mod export;
pub mod kinds;
mod solve;
mod unsolved;
