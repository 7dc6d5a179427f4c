// A district of four junctions, where the crossing 3 joins the outlets 0, 1 and 2 for 6.
use crate::districts::{euros, memory};
use district::district::District;
use estimate::Silent;
use labelling::{Back, Desk, Way};
use network::{Cost, Money};
use queue::Row;
use search::plan::plan;
use search::{NoPlan, Plan};
use std::alloc::Global;
use std::process::Abort;
use std::test::Fail;

// A run of cost `each` from junction 3 to each of 0, 1 and 2, and two more, from 0 to 1 and from 1 to 2.
pub(crate) fn star<K: Cost>(
    rt: &impl Abort,
    heap: Global,
    each: K,
    first: K,
    second: K,
) -> Result<District<K>, Fail> {
    let Ok(mut d) = District::make(4, memory(heap, 5)?) else {
        return Err(Fail::new("not made"));
    };
    for junction in 0..3u64 {
        assert!(rt; d.lay(junction, 3, each).is_ok());
    }
    assert!(rt; d.lay(0, 1, first).is_ok());
    assert!(rt; d.lay(1, 2, second).is_ok());
    Ok(d)
}

// Marks these outlets.
pub(crate) fn mark_all<K: Cost>(rt: &impl Abort, d: &mut District<K>, outlets: &[u64]) {
    for outlet in outlets {
        assert!(rt; d.mark(*outlet).is_ok());
    }
}

pub(crate) fn money_star(rt: &impl Abort, heap: Global) -> Result<District<Money>, Fail> {
    star(rt, heap, euros(2), euros(3), euros(5))
}

// A way back that no search has written.
pub(crate) const WAY: Way = Way {
    turn: 5,
    back: Back::Start,
};

// Plans in memory that held something else before.
fn planned(
    d: &District<Money>,
    limit: u32,
    places: usize,
    answer: &mut [u8],
) -> Result<Plan<Money>, NoPlan<Money>> {
    let mut labels = [Some(euros(77)); 16];
    let mut ways = [WAY; 16];
    let mut waiting = [Some(euros(1)); 16];
    let mut desk = Desk {
        labels: &mut labels[..places.min(16)],
        ways: &mut ways,
        queue: Row::over(&mut waiting),
        estimator: Silent::new(),
    };
    plan(&d.view(), limit, &mut desk, answer)
}

// The number of the refusal, and its count and its floor where it has them.
fn refusal(answer: Result<Plan<Money>, NoPlan<Money>>) -> Option<(u8, Option<u32>, Option<u64>)> {
    let why = answer.err()?;
    let (count, floor) = match why {
        NoPlan::Refused(_) => (None, None),
        NoPlan::Unjoined(count) => (Some(count), None),
        NoPlan::Stopped(count, floor) => (Some(count), Some(floor.amount)),
    };
    Some((why.number(), count, floor))
}

#[test]
fn limits(rt: HostRuntime) -> Result<(), Fail> {
    let mut d = money_star(&rt, rt.alloc())?;
    let mut answer = [9u8; 6];
    assert_eq!(rt;
        refusal(planned(&d, 12, 16, &mut answer)),
        Some((13, None, None))
    );
    assert!(rt; d.mark(0).is_ok());
    let Ok(alone) = planned(&d, 0, 16, &mut answer) else {
        return Err(Fail::new("one outlet needs no run"));
    };
    assert_eq!(rt; (alone.cost.amount, alone.count), (0, 0));
    assert_eq!(rt; answer, [0, 0, 0, 0, 0, 9]);
    mark_all(&rt, &mut d, &[2, 1]);
    let Ok(best) = planned(&d, 12, 16, &mut answer) else {
        return Err(Fail::new("not planned"));
    };
    assert_eq!(rt; (best.cost.amount, best.count), (6, 12));
    assert_eq!(rt; answer, [1, 1, 1, 0, 0, 9]);
    Ok(())
}

#[test]
fn refusals(rt: HostRuntime) -> Result<(), Fail> {
    let mut d = money_star(&rt, rt.alloc())?;
    mark_all(&rt, &mut d, &[0, 1, 2]);
    let mut answer = [9u8; 5];
    assert_eq!(rt;
        refusal(planned(&d, 11, 16, &mut answer)),
        Some((19, Some(11), Some(6)))
    );
    assert_eq!(rt;
        refusal(planned(&d, 4, 16, &mut answer)),
        Some((19, Some(4), Some(3)))
    );
    assert_eq!(rt;
        refusal(planned(&d, 12, 15, &mut answer)),
        Some((14, None, None))
    );
    assert_eq!(rt; answer, [9; 5]);
    let mut short = [9u8; 4];
    assert_eq!(rt;
        refusal(planned(&d, 12, 16, &mut short)),
        Some((17, None, None))
    );
    assert_eq!(rt; short, [9; 4]);
    Ok(())
}
