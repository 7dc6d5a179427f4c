// What a labelling writes.
use network::{Junction, RunNumber};

// What it costs to join a junction with a set of outlets, as far as is known; none where it is not reached.
pub type Label<K> = Option<K>;

// Where a label came from: an outlet alone, another junction over a run, or two labels of the same
// junction, one of which has the noted set.
#[derive(Clone, Copy)]
pub enum Back {
    Start,
    Run(RunNumber),
    Fork(u16),
}

// A label's way back, and the turn in which it was settled; 0 where it is not. An option of a turn would take four
// more of the forty bytes that the C interface asks for each place.
#[derive(Clone, Copy)]
pub struct Way {
    pub turn: u32,
    pub back: Back,
}

// The label of the junction v and the set I has the code v × sets + I.
#[derive(Clone, Copy)]
pub struct Size {
    pub junctions: Junction,
    pub sets: u16,
}

// A junction with a set of outlets, and what joins them.
#[derive(Clone, Copy)]
pub struct Place<K> {
    pub v: Junction,
    pub set: u16,
    pub cost: K,
}

#[derive(Clone, Copy)]
pub enum Outcome<K> {
    Finished,
    NoneWaits,
    Stopped(K),
}

// How the turns ended, and how many there were.
#[derive(Clone, Copy)]
pub struct Ending<K> {
    pub outcome: Outcome<K>,
    pub turns: u32,
}
