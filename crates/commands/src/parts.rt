// What a line says of a plan.
ghost use Rattle.std.specs.Prelude.{◌≡◌};
ghost use Rattle.lines.specs.Left.{words_left};
ghost use Rattle.commands.specs.Commands.{queue_of, estimator_of, part_of, with_part, plan_of};

use crate::command::{Call, Command, EstimatorChoice, PlanWords, QueueChoice};
use lines::{Parts, Words, fill, number, read_parts};

// No `TryFrom`: its error would be an empty type, which each caller turns into none.
fn read_queue(word: &[u8]) -> Option<QueueChoice>
    ensures { result ≡ queue_of word.now }
{
    match word {
        b"row" => Some(QueueChoice::Row),
        b"heap" => Some(QueueChoice::Heap),
        _ => None,
    }
}

// (As `read_queue`.)
fn read_estimator(word: &[u8]) -> Option<EstimatorChoice>
    ensures { result ≡ estimator_of word.now }
{
    match word {
        b"silent" => Some(EstimatorChoice::Silent),
        b"farthest" => Some(EstimatorChoice::Farthest),
        b"larger" => Some(EstimatorChoice::Larger),
        _ => None,
    }
}

// What a part of a plan's line tells.
#[derive(Clone, Copy)]
enum Part {
    Limit,
    Labels,
    Room,
    Row,
    Places,
    Queue,
    Estimator,
}

fn read_name(name: &[u8]) -> Option<Part>
    ensures { result ≡ part_of name.now }
{
    match name {
        b"limit" => Some(Part::Limit),
        b"labels" => Some(Part::Labels),
        b"room" => Some(Part::Room),
        b"row" => Some(Part::Row),
        b"places" => Some(Part::Places),
        b"queue" => Some(Part::Queue),
        b"estimator" => Some(Part::Estimator),
        _ => None,
    }
}

impl Parts for PlanWords {
    ghost with_part = { with_part };

    fn with(mut self, name: &[u8], value: &[u8]) -> Option<PlanWords> {
        match read_name(name)? {
            Part::Limit => fill(&mut self.limit, number(value))?,
            Part::Labels => fill(&mut self.labels, number(value))?,
            Part::Room => fill(&mut self.room, number(value))?,
            Part::Row => fill(&mut self.row, number(value))?,
            Part::Places => fill(&mut self.places, number(value))?,
            Part::Queue => fill(&mut self.queue, read_queue(value))?,
            Part::Estimator => fill(&mut self.estimator, read_estimator(value))?,
        }
        Some(self)
    }
}

// The parts of a plan's line, in any order.
pub(crate) fn read_plan(line: Words<'_>) -> Option<Command>
    ensures { result ≡ plan_of (words_left line.entry) }
{
    let said = read_parts(PlanWords::default(), line)?;
    Some(Command::Call(Call::Plan(said)))
}
