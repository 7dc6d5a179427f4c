// The lines of a district, gathered and then tried by `replay` with each queue and estimator that its plans name.
#![tactic(auto)]

mod page;
mod sheet;
mod trials;
mod tries;

pub use page::Page;
pub use sheet::{Entry, Sheet, Trial, Untried};
pub use trials::{find_trial, try_sheet};
