// The runs that a row marks.
use std::fmt;

// A byte for each run, 1 if it is to be named.
#[derive(Clone, Copy)]
pub struct Marked<'r> {
    pub row: &'r [u8],
}

// The numbers of the runs marked, each after a space, or " none".
impl fmt::Display for Marked<'_> {
    fn fmt<W: fmt::Write>(&self, f: &mut fmt::Formatter<W>) -> fmt::Result {
        if !self.row.contains(&1) {
            return write!(f, " none");
        }
        for (number, mark) in self.row.iter().enumerate() {
            if *mark == 1 {
                write!(f, " {number}")?;
            }
        }
        Ok(())
    }
}
