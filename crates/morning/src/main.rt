// Plans duct trenches: reads a text of districts, tries the calls of each, and says what each line got.
#![tactic(auto)]

mod say;
mod session;

use console::{Fault, TextProgram};
use std::process::ExitCode;

#[derive(Clone, Copy)]
struct ByDistrict;

impl TextProgram for ByDistrict {
    fn answer_all(&self, rt: &HostRuntime, text: &[u8]) -> Result<(), Fault> {
        session::answer_all(rt, text)
    }
}

fn main(rt: HostRuntime) -> ExitCode {
    console::run(&rt, &ByDistrict)
}
