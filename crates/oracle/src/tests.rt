use crate::record::Laid;
use crate::survey::Survey;
use crate::table::Table;
use crate::walk::{Reached, Until, walk_until, walked};
use network::{Cost, Money};
use std::test::*;

// Ends where the goal costs just so much, or where it is not reached.
#[derive(Clone, Copy)]
struct At {
    cost: Option<Money>,
}

impl Until<Money> for At {
    fn ends(&self, goal: Reached<Money>) -> bool {
        goal.cost == self.cost
    }
}

fn laid(a: u64, b: u64, amount: u64) -> Laid<Money> {
    Laid {
        a,
        b,
        cost: Money { amount },
        open: true,
    }
}

// The worked example of docs/RULES.md, whose turns are listed there: the goal is reached at 7 in turn 6 and at 6 in turn 11,
// and settled in turn 12, the last.
#[test]
fn walks_until(rt: HostRuntime) -> Result<(), Fail> {
    let heap = rt.alloc();
    let runs = [
        laid(0, 3, 2),
        laid(1, 3, 2),
        laid(2, 3, 2),
        laid(0, 1, 3),
        laid(1, 2, 5),
    ];
    let survey = Survey {
        junctions: 4,
        outlets: vec![in heap; 0, 1, 2]?,
        sets: 4,
        distances: Table::filled(rt.alloc(), 0, 0, None)?,
    };
    let bounds = Table::filled(rt.alloc(), 4, 4, Some(Money::zero()))?;
    let six = Some(Money { amount: 6 });
    let seven = Some(Money { amount: 7 });
    let right = walked(rt.alloc(), &survey, &runs, &bounds, false)?;
    let hasty = walked(rt.alloc(), &survey, &runs, &bounds, true)?;
    assert!(&rt; right == (six, 12));
    assert!(&rt; hasty == (seven, 6));
    let at_six = walk_until(rt.alloc(), &survey, &runs, &bounds, &At { cost: six })?;
    let at_none = walk_until(rt.alloc(), &survey, &runs, &bounds, &At { cost: None })?;
    let cost = Some(Money { amount: 1 });
    let never = walk_until(rt.alloc(), &survey, &runs, &bounds, &At { cost })?;
    assert!(&rt; at_six == (six, 11));
    assert!(&rt; at_none == (None, 1));
    assert!(&rt; never == (None, 12));
    Ok(())
}
