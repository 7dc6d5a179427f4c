// The functions that C calls. A slice is a pointer and a length there, and `heap` is nothing.
ghost use Rattle.std.specs.Prelude.{◌≡◌};
ghost use Rattle.linked.specs.Lists.{Linked};

use crate::kinds::{Found, Street};
use crate::solve::solve;
use labelling::{Label, Way};
use network::Money;
use std::alloc::Global;
use std::mem::size_of;

// A cheapest network for the outlets, in at most `limit` turns and with so many places for labels. `row` then has a byte
// for each run laid, 1 if it belongs to the network. A street or an outlet that is refused is passed over.
#[unsafe(no_mangle)]
pub extern "C" fn duct_plan(
    heap: Global,
    junctions: u64,
    streets: &[Street],
    outlets: &[u64],
    limit: u32,
    places: usize,
    row: &mut [u8],
) -> Found
    ensures { Linked junctions streets.now outlets.now limit places row.old row.new result }
{
    Found::from(solve(heap, junctions, streets, outlets, limit, places, row))
}

// What a place for a label takes, ways back and heap included: a label, a way back, a key, a code and its place.
#[unsafe(no_mangle)]
pub extern "C" fn duct_bytes_a_place() -> usize
    ensures { result ≡ 40 }
{
    size_of::<Label<Money>>() + size_of::<Way>() + size_of::<Money>() + 2 * size_of::<u32>()
}
