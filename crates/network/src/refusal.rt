// The "no" to a question. Two refusals of a plan carry figures and stand in `search`.
ghost use Rattle.std.specs.Prelude.{◌≡◌};
ghost use Rattle.network.specs.Numbers.{number_of};

use std::fmt;

#[derive(Clone, Copy, Debug, PartialEq, Eq)]
pub enum Refusal {
    JunctionCount = 1,
    RunCapacity = 2,
    NotAJunction = 3,
    SameEnds = 4,
    NoCost = 5,
    TooBulky = 6,
    RunsFull = 7,
    NoRun = 8,
    RunState = 9,
    AlreadyMarked = 10,
    OutletsFull = 11,
    NotMarked = 12,
    NoOutlet = 13,
    LabelMemory = 14,
    QueueCapacity = 15,
    EstimatorFit = 16,
    AnswerRow = 17,
    CodeBeyond = 20,
}

impl Refusal {
    // The number of the question that was answered "no".
    pub fn number(self) -> u8
        ensures { result ≡ number_of self }
    {
        self as u8
    }
}

impl fmt::Display for Refusal {
    ghost use Rattle.std.specs.Prelude.{Some};
    ghost use Rattle.network.specs.Texts.{refusal_text};

    ghost output = { λ refusal. Some (refusal_text refusal) };

    fn fmt<W: fmt::Write>(&self, f: &mut fmt::Formatter<W>) -> fmt::Result {
        let number = self.number();
        write!(f, "refused {number}")
    }
}
