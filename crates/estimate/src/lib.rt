// Bounds on what a search has still to pay.
#![tactic(auto)]

pub mod estimator;
pub mod larger;
pub mod lent;
pub mod shared;
pub mod silent;

pub use estimator::Estimator;
pub use larger::Larger;
pub use silent::Silent;
