// What a search reads of a district. A search never sees the district itself.
ghost use Rattle.std.specs.Prelude.{◌≡◌, ℕ, ◌<◌, ◌≤◌, length};
ghost use Rattle.std.specs.List.Sorted.{IsStrictlyIncreasing};
ghost use Rattle.network.specs.declared.run.Run.{Run};
ghost use Rattle.district.specs.Bounds.{EndsBelow, AllBelow};

use network::{Junction, Run};

#[derive(Drop)]
pub struct View<'v, K> {
    pub junctions: Junction,
    // The runs laid.
    pub runs: &'v [Run<K>],
    // Run i is open if the i-th mark says so: a row of its own, as the district keeps it.
    pub open: &'v [bool],
    // The outlets, by rising number.
    pub outlets: &'v [Junction],
    ghost marks: { length «open».now ≡ length runs.now },
    ghost few: { length runs.now ≤ 4096 },
    ghost many: { junctions ≤ 1024 },
    ghost ends: { EndsBelow junctions runs.now },
    ghost twelve: { length outlets.now ≤ 12 },
    ghost rising: { IsStrictlyIncreasing outlets.now },
    ghost inside: { AllBelow junctions outlets.now },
}
