// The estimator by the outlet that is farthest away.
#![tactic(auto)]

pub mod farthest;
mod settle;

pub use farthest::Farthest;

#[cfg(test)]
mod tests;
