// A run of trench between two junctions.

// A junction's number, counted from 0.
pub type Junction = u16;

// A run's number, counted from 0 as runs are laid.
pub type RunNumber = u16;

#[derive(Clone, Copy, PartialEq, Eq)]
pub struct Run<K> {
    pub a: Junction,
    pub b: Junction,
    pub cost: K,
}
