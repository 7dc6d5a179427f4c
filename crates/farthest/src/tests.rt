use crate::farthest::Farthest;
use district::district::{District, Memory};
use estimate::{Estimator, Larger, Silent};
use network::{Junction, Money, Run};
use std::alloc::Global;
use std::process::Abort;
use std::test::*;

fn run(a: Junction, b: Junction, amount: u64) -> Run<Money> {
    Run {
        a,
        b,
        cost: Money { amount },
    }
}

// A district of these runs, with all junctions from 0 to 2 for outlets.
fn district(
    rt: &impl Abort,
    heap: Global,
    junctions: u64,
    laid: &[Run<Money>],
) -> Result<District<Money>, Fail> {
    let runs = vec![in heap; run(0, 0, 0); 5]?;
    let open = vec![in heap; false; 5]?;
    let Ok(mut d) = District::make(junctions, Memory { runs, open }) else {
        return Err(Fail::new("not made"));
    };
    for r in laid {
        assert!(rt; d.lay(r.a as u64, r.b as u64, r.cost).is_ok());
    }
    for j in 0..3 {
        assert!(rt; d.mark(2 - j).is_ok());
    }
    Ok(d)
}

fn district_a(rt: &impl Abort, heap: Global) -> Result<District<Money>, Fail> {
    district(
        rt,
        heap,
        4,
        &[
            run(0, 3, 2),
            run(1, 3, 2),
            run(2, 3, 2),
            run(0, 1, 3),
            run(1, 2, 5),
        ],
    )
}

// What an estimator must say of a junction and a set.
fn says<E: Estimator<Cost = Money>>(
    rt: &impl Abort,
    estimator: &E,
    asked: &[(Junction, u16, u64)],
) -> Result<(), Fail> {
    for (v, set, amount) in asked {
        assert_eq!(rt; estimator.estimate(*v, *set).amount, *amount);
    }
    Ok(())
}

#[test]
fn bounds_of_district_a(rt: HostRuntime) -> Result<(), Fail> {
    let a = district_a(&rt, rt.alloc())?;
    let mut places = [None; 48];
    let mut far = Farthest::over(&mut places);
    says(&rt, &far, &[(0, 0, 0), (1, 1, 0)])?;
    assert!(rt; far.prepare(&a.view()).is_ok());
    says(
        &rt,
        &far,
        &[
            (1, 1, 4),
            (2, 2, 4),
            (3, 0, 2),
            (0, 3, 0),
            (0, 0, 4),
            (4, 0, 0),
            (0, 4, 0),
        ],
    )
}

// Nothing is kept of the district before, an outlet that cannot be reached counts for nothing,
// and a district that does not fit is refused, and the bound stays.
#[test]
fn prepared_again(rt: HostRuntime) -> Result<(), Fail> {
    let a = district_a(&rt, rt.alloc())?;
    let b = district(&rt, rt.alloc(), 3, &[run(0, 1, 7)])?;
    let c = district(&rt, rt.alloc(), 5, &[run(0, 1, 1)])?;
    let mut places = [None; 59];
    let mut far = Farthest::over(&mut places);
    assert!(rt; far.prepare(&a.view()).is_ok());
    assert!(rt; far.prepare(&b.view()).is_ok());
    let said = [(0, 0, 7), (0, 1, 0), (2, 0, 0), (3, 0, 0)];
    says(&rt, &far, &said)?;
    match far.prepare(&c.view()) {
        Ok(()) => return Err(Fail::new("it does not fit")),
        Err(why) => assert_eq!(rt; why.number(), 16),
    }
    says(&rt, &far, &said)
}

// The greater of two is refused where either does not fit, and both bounds stay.
#[test]
fn larger_asks_both(rt: HostRuntime) -> Result<(), Fail> {
    let a = district_a(&rt, rt.alloc())?;
    let mut many = [None; 48];
    let mut few = [None; 36];
    let mut first = Farthest::over(&mut many);
    let mut second = Farthest::over(&mut few);
    let mut both = Larger {
        first: &mut first,
        second: &mut second,
    };
    assert!(rt; both.prepare(&a.view()).is_err());
    says(&rt, &both, &[(0, 0, 0)])?;
    assert!(rt; first.prepare(&a.view()).is_ok());
    let both = Larger {
        first,
        second: Silent::new(),
    };
    says(&rt, &both, &[(0, 0, 4)])
}
