// Plans by the farthest outlet, in a heap, in money and in crossings-first.
use crate::districts::{euros, memory};
use crate::plans::{WAY, mark_all, money_star, star};
use district::district::District;
use farthest::Farthest;
use heap::Heap;
use labelling::Desk;
use network::{Cost, CrossingsFirst};
use search::plan::plan;
use search::{NoPlan, Plan};
use std::alloc::{AllocError, Global};
use std::test::Fail;

// Plans in memory that held something else before. Memory and the plan fail apart.
fn planned<K: Cost>(
    heap: Global,
    d: &District<K>,
    limit: u32,
    label: K,
    other: K,
    answer: &mut [u8],
) -> Result<Result<Plan<K>, NoPlan<K>>, AllocError> {
    let mut labels = vec![in heap; Some(label); 16]?;
    let mut ways = [WAY; 16];
    let mut keys = vec![in heap; other; 16]?;
    let mut codes = [7u32; 16];
    let mut places = [7u32; 16];
    let mut distances = vec![in heap; Some(other); 48]?;
    let mut desk = Desk {
        labels: &mut labels,
        ways: &mut ways,
        queue: Heap::over(&mut keys, &mut codes, &mut places),
        estimator: Farthest::over(&mut distances),
    };
    Ok(plan(&d.view(), limit, &mut desk, answer))
}

#[test]
fn in_money(rt: HostRuntime) -> Result<(), Fail> {
    let mut d = money_star(&rt, rt.alloc())?;
    mark_all(&rt, &mut d, &[0, 1, 2]);
    let mut answer = [9u8; 5];
    let Err(NoPlan::Stopped(count, floor)) = planned(
        rt.alloc(),
        &d,
        0,
        euros(77),
        euros(1),
        &mut answer,
    )?
    else {
        return Err(Fail::new("not stopped"));
    };
    assert_eq!(rt; (count, floor.amount), (0, 4));
    let Ok(best) = planned(rt.alloc(), &d, 12, euros(77), euros(1), &mut answer)? else {
        return Err(Fail::new("not planned"));
    };
    assert_eq!(rt; (best.cost.amount, best.count), (6, 6));
    assert_eq!(rt; answer, [1, 1, 1, 0, 0]);
    Ok(())
}

// A run repriced from dear to cheap: the plan moves to it, so no distance is kept from before.
#[test]
fn repriced(rt: HostRuntime) -> Result<(), Fail> {
    let Ok(mut d) = District::make(4, memory(rt.alloc(), 4)?) else {
        return Err(Fail::new("not made"));
    };
    assert!(rt; d.lay(1, 2, euros(1)).is_ok());
    assert!(rt; d.lay(2, 0, euros(10)).is_ok());
    assert!(rt; d.lay(1, 3, euros(3)).is_ok());
    assert!(rt; d.lay(3, 0, euros(3)).is_ok());
    mark_all(&rt, &mut d, &[0, 1]);
    let mut answer = [9u8; 4];
    let Ok(dear) = planned(rt.alloc(), &d, 4, euros(77), euros(1), &mut answer)? else {
        return Err(Fail::new("not planned"));
    };
    assert_eq!(rt; (dear.cost.amount, dear.count), (6, 3));
    assert_eq!(rt; answer, [0, 0, 1, 1]);
    assert!(rt; d.reprice(1, euros(1)).is_ok());
    let Ok(cheap) = planned(rt.alloc(), &d, 4, euros(77), euros(1), &mut answer)? else {
        return Err(Fail::new("not planned"));
    };
    assert_eq!(rt; (cheap.cost.amount, cheap.count), (2, 3));
    assert_eq!(rt; answer, [1, 1, 0, 0]);
    Ok(())
}

fn crossing(crossings: u64, money: u64) -> CrossingsFirst {
    CrossingsFirst { crossings, money }
}

#[test]
fn in_crossings(rt: HostRuntime) -> Result<(), Fail> {
    let mut d = star(
        &rt,
        rt.alloc(),
        crossing(1, 2),
        crossing(0, 3),
        crossing(0, 5),
    )?;
    mark_all(&rt, &mut d, &[0, 1, 2]);
    let mut answer = [9u8; 5];
    let Ok(best) = planned(
        rt.alloc(),
        &d,
        12,
        crossing(7, 7),
        crossing(0, 1),
        &mut answer,
    )?
    else {
        return Err(Fail::new("not planned"));
    };
    assert_eq!(rt; (best.cost.crossings, best.cost.money), (0, 8));
    assert_eq!(rt; answer, [0, 0, 0, 1, 1]);
    Ok(())
}
