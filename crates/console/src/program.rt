// A program that answers a text.
use crate::fault::Fault;
use crate::input::read_text;
use std::process::ExitCode;

pub trait TextProgram {
    // Says on standard output what each line of the text gets.
    fn answer_all(&self, rt: &HostRuntime, text: &[u8]) -> Result<(), Fault>;
}

// The text, and then its answers.
fn answer<P: TextProgram>(rt: &HostRuntime, program: &P) -> Result<(), Fault> {
    let text = read_text(rt)?;
    program.answer_all(rt, &text)
}

// Status 1 where a fault ended it, which is said on standard error.
pub fn run<P: TextProgram>(rt: &HostRuntime, program: &P) -> ExitCode {
    match answer(rt, program) {
        Ok(()) => ExitCode::SUCCESS,
        Err(fault) => {
            fault.report(rt);
            ExitCode::FAILURE
        }
    }
}
