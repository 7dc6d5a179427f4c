// What is plausible and false, on the worked examples and beside what is right.
ghost use Rattle.std.specs.Prelude.{◌≡◌, ◌+◌, ◌-◌, ◌^◌, min, max};

use crate::calls::{RING, STAR, ask, laid_out, recorded};
use crate::fault::{Fault, Wrong, hold};
use network::Money;
use oracle::costs::{bit, holds};
use oracle::survey::{Survey, surveyed};
use oracle::table::Table;
use oracle::walk::{far_bounds, walked};
use replay::Call;
use std::alloc::Global;

// An amount, or 0 where there is none.
fn amount(cost: Option<Money>) -> u64 {
    cost.map_or(0, |money| money.amount)
}

// The least distance from one of the outlets that are joined to one that is not, and which that is.
fn nearest(survey: &Survey<Money>, joined: usize) -> Option<(u64, usize)> {
    let mut least: Option<(u64, usize)> = None;
    for (i, a) in survey.outlets.iter().enumerate() {
        for (j, b) in survey.outlets.iter().enumerate() {
            if holds(joined, i) && !holds(joined, j) {
                if let Some(distance) = survey.distance(*a, *b) {
                    let next = (distance.amount, j);
                    least = Some(least.map_or(next, |least| least.min(next)));
                }
            }
        }
    }
    least
}

// What a tree costs that joins the outlets two by two, along their distances; none where they cannot be joined.
fn spanning(survey: &Survey<Money>) -> Option<u64> {
    let mut joined = bit(0);
    let mut cost: u64 = 0;
    for _edge in 1..survey.outlets.len() {
        let (amount, next) = nearest(survey, joined)?;
        joined |= bit(next);
        cost = cost.saturating_add(amount);
    }
    Some(cost)
}

// The star: joining its outlets two by two is dearer, and so is ending too soon.
fn star(rt: &HostRuntime) -> Result<(), Fault> {
    let asked = laid_out::<Money>(rt.alloc(), &STAR, 3)?;
    let record = recorded(rt.alloc(), 4, &asked)?;
    let survey = surveyed(rt.alloc(), &record)?;
    let nothing = Some(Money { amount: 0 });
    let bounds = Table::filled(rt.alloc(), survey.junctions, survey.sets, nothing)?;
    let runs = &record.runs;
    let (right, turns) = walked(rt.alloc(), &survey, runs, &bounds, false)?;
    let (hasty, _) = walked(rt.alloc(), &survey, runs, &bounds, true)?;
    let tree = spanning(&survey).unwrap_or(0);
    let right = amount(right);
    let hasty = amount(hasty);
    println!(rt;
        "star: {right} in {turns} turns; {tree} by a tree over distances; {hasty} when first reached"
    )?;
    hold(
        right == 6 && turns == 12 && tree == 7 && hasty == 7,
        Wrong::TheStar,
    )
}

// The ring after a run is repriced: with the bounds of before it is dearer.
fn ring(rt: &HostRuntime) -> Result<(), Fault> {
    let mut asked = laid_out::<Money>(rt.alloc(), &RING, 2)?;
    let before = surveyed(rt.alloc(), &recorded(rt.alloc(), 4, &asked)?)?;
    let cost = Money { amount: 1 };
    ask(&mut asked, Call::Reprice { run: 1, cost })?;
    let record = recorded(rt.alloc(), 4, &asked)?;
    let survey = surveyed(rt.alloc(), &record)?;
    let old = far_bounds(rt.alloc(), &before)?;
    let new = far_bounds(rt.alloc(), &survey)?;
    let runs = &record.runs;
    let (stale, _) = walked(rt.alloc(), &survey, runs, &old, false)?;
    let (right, _) = walked(rt.alloc(), &survey, runs, &new, false)?;
    let stale = amount(stale);
    let right = amount(right);
    println!(rt; "ring, repriced: {right}; {stale} with the distances of before")?;
    hold(right == 2 && stale == 6, Wrong::TheRing)
}

// A worst road class, then money: of two together the class is the worse one.
#[derive(Clone, Copy, PartialEq, Eq, PartialOrd, Ord)]
struct Worst {
    class: u64,
    money: u64,
}

fn together(a: Worst, b: Worst) -> Worst
    ensures { result ≡ record { class = max a.class b.class; money = min (a.money + b.money) (2 ^ 64 - 1) } }
{
    Worst {
        class: a.class.max(b.class),
        money: a.money.saturating_add(b.money),
    }
}

// The order of two turns when the same is joined to each: this is no kind of cost.
fn worst_class(rt: &HostRuntime) -> Result<(), Fault> {
    let a = Worst { class: 2, money: 5 };
    let b = Worst { class: 3, money: 1 };
    let c = Worst { class: 3, money: 0 };
    let first = a < b;
    let then = together(a, c) < together(b, c);
    println!(rt; "worst class, then money: before {first}, with the same joined to each {then}")?;
    hold(first && !then, Wrong::WorstClassThenMoney)
}

pub fn all_false(rt: &HostRuntime) -> Result<(), Fault> {
    star(rt)?;
    ring(rt)?;
    worst_class(rt)
}
