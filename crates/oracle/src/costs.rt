// Costs that may be none, rows of them, and sets of junctions or runs as numbers.
ghost use Rattle.std.specs.Prelude.{◌≡◌, ◌^◌, ◌<◌, set as put, None, not, ◌==◌, bit_and, slice_index_or};
ghost use Rattle.oracle.specs.Costs.{lesser_of, sum_of, same_cost};

use network::Cost;

// The set of `i` alone: 2 to the power `i`, or 0 from 32 on. (`checked_shl` goes on to 63.)
pub fn bit(i: usize) -> usize
    ensures { i < 32 → result ≡ 2 ^ i }
{
    if i < 32 { 1 << i } else { 0 }
}

// Whether `set` has all of `part`.
pub fn has(set: usize, part: usize) -> bool
    ensures { result ≡ ((bit_and set part) == part) }
{
    set & part == part
}

// Whether `set` has `i`.
pub fn holds(set: usize, i: usize) -> bool
    ensures { i < 32 → result ≡ not ((bit_and set (2 ^ i)) == 0) }
{
    set & bit(i) != 0
}

// The lesser of two, the first among equals; none is greater than any.
pub fn lesser<K: Cost>(a: Option<K>, b: Option<K>) -> Option<K>
    ensures { result ≡ lesser_of K.Cost.kind a b }
{
    match (a, b) {
        (Some(x), Some(y)) => Some(if y.is_below(x) { y } else { x }),
        _ => a.or(b),
    }
}

// The sum of two, or none where either is none.
pub fn added<K: Cost>(a: Option<K>, b: Option<K>) -> Option<K>
    ensures { result ≡ sum_of K.Cost.kind a b }
{
    a?.sum(b?)
}

// Whether both are none, or neither is below the other. A kind of cost has an order and no `==`.
pub fn alike<K: Cost>(a: Option<K>, b: Option<K>) -> bool
    ensures { result ≡ same_cost K.Cost.kind a b }
{
    match (a, b) {
        (Some(x), Some(y)) => !x.is_below(y) && !y.is_below(x),
        _ => a.is_none() && b.is_none(),
    }
}

// What stands at `i`, and none past the end. (The library has its own: the oracle shares nothing with it.)
pub fn at<K: Copy>(row: &[Option<K>], i: usize) -> Option<K>
    ensures { result ≡ slice_index_or row.now i None }
{
    row.get(i).copied().flatten()
}

// The lesser of what stands at `i` and `cost` stands there; nothing changes past the end.
pub fn lower<K: Cost>(row: &mut [Option<K>], i: usize, cost: Option<K>)
    ensures { row.new ≡ put row.old i (lesser_of K.Cost.kind (slice_index_or row.old i None) cost) }
{
    // By index: after `get_mut` nothing is known of the elements, and the contract is not proved.
    if i < row.len() {
        row[i] = lesser(row[i], cost);
    }
}
