// A district: junctions, runs of trench with their costs, and outlets.
#![tactic(auto)]

pub mod district;
pub mod view;
