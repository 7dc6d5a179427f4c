use crate::cost::Cost;
use crate::crossings::CrossingsFirst;

fn crossings(crossings: u64, money: u64) -> CrossingsFirst {
    CrossingsFirst { crossings, money }
}

#[test]
fn crossings_before_money(rt: HostRuntime) {
    let few = crossings(1, 900);
    let many = crossings(2, 5);
    assert!(rt; few.is_below(many));
    assert!(rt; !many.is_below(few));
    assert!(rt; crossings(2, 4).is_below(many));
    assert!(rt; !many.is_below(many));
    assert!(rt; few.bulk() == 900);
    assert!(rt; many.greater(few) == many);
    assert!(rt; many.lesser(few) == few);
}

// The larger parts together are more than 2^50, though neither part of the sum is.
#[test]
fn bulks_and_not_parts(rt: HostRuntime) {
    let most = 1 << 50;
    assert!(rt; crossings(most, 0).sum(crossings(0, 1)).is_none());
    assert!(rt; crossings(most - 1, 0).sum(crossings(0, 1)).is_some());
}

// Not a cost: the worst class of road on the way, and then money.
#[derive(Clone, Copy, PartialEq, Eq, PartialOrd, Ord)]
struct WorstClass {
    class: u64,
    money: u64,
}

fn worst(class: u64, money: u64) -> WorstClass {
    WorstClass { class, money }
}

impl WorstClass {
    // Both ways together: the worse class, and all the money.
    fn joined(self, other: WorstClass) -> WorstClass {
        worst(
            self.class.max(other.class),
            self.money.saturating_add(other.money),
        )
    }
}

// The same joined to both turns their order, so the laws of a cost do not hold.
#[test]
fn worst_class_is_no_cost(rt: HostRuntime) {
    let a = worst(2, 5);
    let b = worst(3, 1);
    let more = worst(3, 0);
    assert!(rt; a < b);
    assert!(rt; a.joined(more) >= b.joined(more));
}
