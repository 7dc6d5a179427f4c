// What a line says of a plan.
ghost use Rattle.std.specs.Prelude.{◌≡◌};
ghost use Rattle.lines.specs.Left.{words_left};
ghost use Rattle.text.specs.Commands.{queue_of, estimator_of, with_part, plan_of};

use crate::command::{Call, Command, EstimatorChoice, PlanWords, QueueChoice};
use lines::{Parts, Words, fill, number, read_parts};

// No `TryFrom`: its error would be an empty type, which each caller turns into none.
fn read_queue(word: &[u8]) -> Option<QueueChoice>
    ensures { result ≡ queue_of word.now }
{
    match word {
        b"row" => Some(QueueChoice::Row),
        _ => None,
    }
}

// (As `read_queue`.)
fn read_estimator(word: &[u8]) -> Option<EstimatorChoice>
    ensures { result ≡ estimator_of word.now }
{
    match word {
        b"silent" => Some(EstimatorChoice::Silent),
        _ => None,
    }
}

impl Parts for PlanWords {
    ghost with_part = { with_part };

    fn with(mut self, name: &[u8], value: &[u8]) -> Option<PlanWords> {
        match name {
            b"limit" => fill(&mut self.limit, number(value))?,
            b"queue" => fill(&mut self.queue, read_queue(value))?,
            b"estimator" => fill(&mut self.estimator, read_estimator(value))?,
            _ => return None,
        }
        Some(self)
    }
}

// The parts of a plan's line, in any order.
pub(crate) fn read_plan(line: Words<'_>) -> Option<Command>
    ensures { result ≡ plan_of (words_left line.entry) }
{
    let said = read_parts(PlanWords::default(), line)?;
    Some(Command::Call(Call::Plan(said)))
}
