// What the lines of a district ask for: the calls that they make, with what their plans are made, and the turns by which they are tried.
#![tactic(auto)]

mod attempts;
mod figured;
mod requests;
mod tools;

pub use figured::Figured;
pub use requests::{Request, labels_for, request_of, turns_for};
pub use tools::Tools;
