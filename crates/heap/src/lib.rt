// A queue over lent rows of keys, codes and places, which keeps the codes that wait as a heap: a code's key is the
// cost at which it waits, and no code comes before the one over it.
#![tactic(auto)]

mod methods;
#[cfg(test)]
mod tests;

ghost use Rattle.std.specs.Prelude.{◌^◌, ◌<◌, ◌≤◌, length};
ghost use Rattle.heap.specs.Places.{Found};

// All memory is the caller's, so these are lent slices with a count beside them, kept as they were lent: the capacity is no row's
// length. Keys and places are two rows, since pairs would take four more of the forty bytes that the C interface asks for each place.
// The order of the codes is no field: it does not hold while a code rises or sinks.
#[derive(Drop)]
pub struct Heap<'m, K> {
    // How many codes there are; they are kept in 32 bits.
    cap: u32,
    // How many of them wait.
    len: u32,
    // By code: its key, where it waits.
    keys: &'m mut [K],
    // The codes that wait: the first `len`. The places `2 i + 1` and `2 i + 2` are under the place `i`.
    codes: &'m mut [u32],
    // By code: its place in `codes`, where it waits, and anything where it does not.
    places: &'m mut [u32],
    ghost room: { (cap < 2 ^ 32) × (cap ≤ length keys.now) × (cap ≤ length codes.now) × (cap ≤ length places.now) },
    ghost within: { len ≤ cap },
    // Each code that waits is below the capacity, and its place is noted.
    ghost found: { Found len cap codes.now places.now },
}
