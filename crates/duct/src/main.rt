// Plans duct trenches: reads a text of districts and answers it line by line.
#![tactic(auto)]

mod answer;
mod planner;
mod session;
mod site;

use console::{Fault, TextProgram};
use std::process::ExitCode;

#[derive(Clone, Copy)]
struct ByLine;

impl TextProgram for ByLine {
    fn answer_all(&self, rt: &HostRuntime, text: &[u8]) -> Result<(), Fault> {
        session::answer_all(rt, text)
    }
}

fn main(rt: HostRuntime) -> ExitCode {
    console::run(&rt, &ByLine)
}
