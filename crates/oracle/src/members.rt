// The members of a set that is a number, by rising number.
ghost use Rattle.std.specs.Prelude.{◌≡◌};
ghost use Rattle.std.specs.Iterator.{at_most};
ghost use Rattle.oracle.specs.Sets.{least_of, without_least};

#[derive(Drop)]
pub struct Rising {
    // What is still to come.
    pub left: usize,
}

impl Iterator for Rising {
    type Item = usize;

    ghost next_gives = { λ s r t. (r ≡ least_of s.left) × (t.left ≡ without_least s.left) };

    ghost remaining = { λ s. at_most s.left };

    fn next(&mut self) -> Option<usize> {
        if self.left == 0 {
            return None;
        }
        let first = self.left.trailing_zeros() as usize;
        self.left &= self.left - 1;
        Some(first)
    }
}

// The numbers whose bits are set.
pub fn members(set: usize) -> Rising
    ensures { result.left ≡ set }
{
    Rising { left: set }
}
