// Sequences of random calls, right and wrong.
use crate::calls::{ask, plan_within};
use crate::fault::Fault;
use crate::random::Random;
use crate::ways::{Asked, Sequence};
use oracle::kind::Kind;
use replay::{Allowance, Call};
use std::alloc::Global;

// A junction, now and then none of the district's.
fn junction(random: &mut Random, junctions: u64) -> u64 {
    if random.once_in(40) {
        random.below(junctions).saturating_add(65536)
    } else if random.once_in(20) {
        junctions
    } else {
        random.below(junctions)
    }
}

// A cost, now and then none that a run may have.
fn cost<K: Kind>(random: &mut Random) -> K {
    match random.below(30) {
        0 => K::of(0, 0),
        1 => K::of(0, 1_000_000),
        2 => K::of(1, 1_000_001),
        _ => K::of(random.below(3), random.below(9).saturating_add(1)),
    }
}

// A limit of turns: none, few, some, or as many as there are.
fn limit(random: &mut Random) -> u32 {
    match random.below(8) {
        0 => 0,
        1 | 2 => random.below(12) as u32,
        3 => random.below(60) as u32,
        _ => u32::MAX,
    }
}

// So many places, or one time in sixteen fewer.
fn places(random: &mut Random, most: usize) -> usize {
    if random.once_in(16) {
        random.below(60) as usize
    } else {
        most
    }
}

fn any_plan<K: Kind>(random: &mut Random) -> Call<K> {
    Call::Plan(Allowance {
        limit: limit(random),
        labels: places(random, usize::MAX),
        codes: places(random, usize::MAX),
        junctions: usize::MAX,
    })
}

// One of the first `kinds` of 24 kinds of call: lay and mark come first.
fn any_call<K: Kind>(random: &mut Random, junctions: u64, kinds: u64) -> Call<K> {
    match random.below(kinds) {
        0..=9 => Call::Lay {
            a: junction(random, junctions),
            b: junction(random, junctions),
            cost: cost(random),
        },
        10..=14 => Call::Mark {
            junction: junction(random, junctions),
        },
        15 => Call::Unmark {
            junction: junction(random, junctions),
        },
        16 => Call::Reprice {
            run: random.below(8),
            cost: cost(random),
        },
        17 | 18 => Call::Close {
            run: random.below(8),
        },
        19 => Call::Open {
            run: random.below(8),
        },
        _ => any_plan(random),
    }
}

// The number of junctions: mostly few, and now and then none that a district may have.
fn any_junctions(random: &mut Random) -> u64 {
    match random.below(60) {
        0 => 0,
        1 => 1,
        2 => 1025,
        _ => random.below(6).saturating_add(2),
    }
}

// At most twenty-six calls on few junctions and at most nine runs; the last call is a plan with no limit.
pub fn any_sequence<K: Kind>(heap: Global, random: &mut Random) -> Result<Sequence<K>, Fault> {
    let junctions = any_junctions(random);
    let mut asked = Vec::new(heap);
    for i in 0..random.below(16).saturating_add(10) {
        let call = any_call(random, junctions, if i < 6 { 15 } else { 24 });
        let row = places(random, 10).min(10);
        asked.push(Asked { call, row })?;
    }
    ask(&mut asked, plan_within(u32::MAX))?;
    Ok(Sequence {
        junctions,
        capacity: (random.below(6) as usize).saturating_add(4),
        distances: if random.once_in(16) { 36 } else { 84 },
        asked,
    })
}
