// How many of what was tried, and where the trial is.
use oracle::record::Fails;
use oracle::said::Said;
use std::fmt;

// One more than the largest number of a refusal.
const NUMBERS: usize = 21;

#[derive(Clone, Copy, Default)]
pub struct Tally {
    // The sequences so far, and the call and the way that are looked at.
    pub sequence: u64,
    pub call: usize,
    pub way: usize,
    // Calls and plans, each counted in every way in which it was tried.
    pub calls: u64,
    pub found: u64,
    // By the number of the refusal.
    refused: [u64; NUMBERS],
    pub labels: u64,
    pub bounds: u64,
    pub laws: u64,
    pub limits: u64,
}

impl Tally {
    // One more refusal.
    pub fn refuse(&mut self, fails: Fails) {
        if let Some(times) = self.refused.get_mut(fails as usize) {
            count(times);
        }
    }

    // One more answer.
    pub fn tell(&mut self, said: Said) {
        count(&mut self.calls);
        match said.fails() {
            Some(fails) => self.refuse(fails),
            None => {
                if let Said::Planned(_, _, _) = said {
                    count(&mut self.found);
                }
            }
        }
    }
}

// One more.
pub fn count(n: &mut u64) {
    *n = n.saturating_add(1);
}

impl fmt::Display for Tally {
    fn fmt<W: fmt::Write>(&self, f: &mut fmt::Formatter<W>) -> fmt::Result {
        write!(
            f,
            "{} sequences, {} answers, {} plans found\n  refusals by number, and how many:",
            self.sequence, self.calls, self.found
        )?;
        for (number, times) in self.refused.iter().enumerate() {
            if *times > 0 {
                write!(f, " {number} ({times})")?;
            }
        }
        write!(
            f,
            "\n  {} labels, {} bounds, {} limits, {} instances of the law of estimators",
            self.labels, self.bounds, self.limits, self.laws
        )
    }
}
