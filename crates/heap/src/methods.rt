// The methods of the queue over a heap.
ghost use Rattle.std.specs.Prelude.{◌≡◌, ◌+◌, ◌-◌, ◌<◌, min, true, false, [], ◌∷◌, length, replicate, Some, None, slice_index, slice_set};
ghost use Rattle.std.specs.List.{slice_get, swap};
ghost use Rattle.heap.specs.Heaps.{codes_held, heap_waits, heap_lender, parent, Good};
ghost use Rattle.heap.specs.Places.{stands};
ghost use Rattle.heap.specs.Sifts.{Tells, TellsLess, Emptied, Exchanged, Rekeyed, Appended, LastFirst, Kept, ButAt, ButUnder, Chosen, Top, Takes};
ghost use Rattle.queue.specs.Waits.{put_in};

use crate::Heap;
use network::{Cost, Refusal};
use queue::Queue;

// How many codes rows of these lengths have places for.
fn codes_held(keys: usize, codes: usize, places: usize) -> u32
    ensures { result ≡ min 4294967295 (min keys (min codes places)) }
{
    keys.min(codes.min(places)).min(u32::MAX as usize) as u32
}

// The place over a place that is not the first.
fn place_over(at: u32) -> u32
    requires { 0 < at }
    ensures { result ≡ parent at }
{
    (at - 1) / 2
}

// Exchanges the codes at two places, and notes the place of each. What was noted is written over unread: `places.swap` is slower.
fn exchange(codes: &mut [u32], places: &mut [u32], i: u32, j: u32)
    requires inside { (i < length codes.old) × (j < length codes.old) }
    requires noted { (slice_index codes.old i < length places.old) × (slice_index codes.old j < length places.old) }
    ensures coded { codes.new ≡ swap codes.old i j }
    ensures placed { places.new ≡ slice_set (slice_set places.old (slice_index codes.old j) i) (slice_index codes.old i) j }
{
    places[codes[j as usize] as usize] = i;
    places[codes[i as usize] as usize] = j;
    codes.swap(i as usize, j as usize);
}

impl<'m, K: Cost> Heap<'m, K> {
    // A queue over the rows, with as many codes as the shortest has places. Nothing waits, whatever they held.
    pub fn over(keys: &'m mut [K], codes: &'m mut [u32], places: &'m mut [u32]) -> Heap<'m, K>
        ensures good { Good K.Cost.kind.below result }
        ensures lends { heap_lender result ≡ keys.entry.ghost_name ∷ codes.entry.ghost_name ∷ places.entry.ghost_name ∷ [] }
        ensures waits { heap_waits result ≡ replicate (codes_held keys.old codes.old places.old) None }
    {
        let cap = codes_held(keys.len(), codes.len(), places.len());
        Heap {
            cap,
            len: 0,
            keys,
            codes,
            places,
        }
    }

    // How many codes there are.
    fn size(&self) -> u32
        ensures is { result ≡ self.now.cap }
        ensures counts { result ≡ length (heap_waits self.now) }
    {
        self.cap
    }

    // Nothing waits any more.
    fn empty(&mut self)
        ensures { Emptied self.old self.new }
    {
        self.len = 0;
    }

    // Whether the code waits.
    fn has(&self, code: u32) -> bool
        requires code_lt_cap { code < self.now.cap }
        ensures { result ≡ stands self.now.len self.now.codes.now self.now.places.now code }
    {
        let at = self.places[code as usize];
        at < self.len && self.codes[at as usize] == code
    }

    // The first code and its key, or none where nothing waits.
    fn top(&self) -> Option<(K, usize)>
        ensures { Top self.now result }
    {
        if self.len == 0 {
            None
        } else {
            let code = self.codes[0];
            Some((self.keys[code as usize], code as usize))
        }
    }

    // Whether the code at one place comes before that at another: by their keys, and then by the codes.
    fn precedes(&self, i: u32, j: u32) -> bool
        requires inside { (i < self.now.len) × (j < self.now.len) }
        ensures { Tells K.Cost.kind.below self.now.keys.now (slice_index self.now.codes.now i) (slice_index self.now.codes.now j) result }
    {
        let a = self.codes[i as usize];
        let b = self.codes[j as usize];
        let first = self.keys[a as usize];
        let second = self.keys[b as usize];
        first.is_below(second) || (!second.is_below(first) && a < b)
    }

    // Whether `key` is below the key of a code.
    fn falls(&self, code: u32, key: K) -> bool
        requires { code < self.now.cap }
        ensures { TellsLess K.Cost.kind.below key self.now.keys.now code result }
    {
        key.is_below(self.keys[code as usize])
    }

    // Exchanges the codes at two places.
    fn swap(&mut self, i: u32, j: u32)
        requires inside { (i < self.old.len) × (j < self.old.len) }
        ensures { Exchanged self.old self.new i j }
    {
        exchange(self.codes, self.places, i, j);
    }

    // Gives a code this key.
    fn set_key(&mut self, code: u32, key: K)
        requires { code < self.old.cap }
        ensures { Rekeyed self.old self.new code key }
    {
        self.keys[code as usize] = key;
    }

    // Adds a code with this key behind all that wait.
    fn append(&mut self, code: u32, key: K)
        requires inside { code < self.old.cap }
        requires waits { stands self.old.len self.old.codes.now self.old.places.now code ≡ false }
        ensures { Appended self.old self.new code key }
    {
        let end = self.len;
        self.keys[code as usize] = key;
        self.codes[end as usize] = code;
        self.places[code as usize] = end;
        self.len = end + 1;
    }

    // Puts the last code in the place of the first, which waits no more.
    fn last_to_first(&mut self)
        requires inside { 0 < self.old.len }
        ensures { LastFirst self.old self.new }
    {
        let end = self.len - 1;
        let last = self.codes[end as usize];
        self.len = end;
        self.places[last as usize] = 0;
        self.codes[0] = last;
    }

    // Lets the code at `start` rise to where it belongs.
    fn rise(&mut self, start: u32)
        requires inside { start < self.old.len }
        requires but { ButAt K.Cost.kind.below self.old start }
        ensures good { Good K.Cost.kind.below self.new }
        ensures kept { Kept self.old self.new }
    {
        let mut at = start;
        while at > 0 {
            let up = place_over(at);
            if !self.precedes(at, up) {
                break;
            }
            self.swap(at, up);
            at = up;
        }
    }

    // The place of the first of the codes right under `at`.
    fn child(&self, at: u32) -> u32
        requires inside { at + at + 1 < self.now.len }
        ensures { Chosen K.Cost.kind.below self.now at result }
    {
        let left = at + at + 1;
        let right = left + 1;
        if right < self.len && self.precedes(right, left) {
            right
        } else {
            left
        }
    }

    // Lets the code at `start` sink to where it belongs.
    fn sink(&mut self, start: u32)
        requires but { ButUnder K.Cost.kind.below self.old start }
        ensures good { Good K.Cost.kind.below self.new }
        ensures kept { Kept self.old self.new }
    {
        let mut at = start;
        while at < self.len / 2 {
            let next = self.child(at);
            if !self.precedes(next, at) {
                break;
            }
            self.swap(at, next);
            at = next;
        }
    }

    // The key of a code that waits falls to `key`, where that is below it.
    fn lower(&mut self, code: u32, key: K)
        requires good { Good K.Cost.kind.below self.old }
        requires inside { code < self.old.cap }
        requires waits { stands self.old.len self.old.codes.now self.old.places.now code ≡ true }
        ensures good { Good K.Cost.kind.below self.new }
        ensures lends { heap_lender self.new ≡ heap_lender self.old }
        ensures waits { heap_waits self.new ≡ put_in K.Cost.kind.below (heap_waits self.old) code key }
    {
        let at = self.places[code as usize];
        if self.falls(code, key) {
            self.set_key(code, key);
            self.rise(at);
        }
    }

    // A code that does not wait waits at `key`.
    fn insert(&mut self, code: u32, key: K)
        requires good { Good K.Cost.kind.below self.old }
        requires inside { code < self.old.cap }
        requires waits { stands self.old.len self.old.codes.now self.old.places.now code ≡ false }
        ensures good { Good K.Cost.kind.below self.new }
        ensures lends { heap_lender self.new ≡ heap_lender self.old }
        ensures waits { heap_waits self.new ≡ put_in K.Cost.kind.below (heap_waits self.old) code key }
    {
        let end = self.len;
        self.append(code, key);
        self.rise(end);
    }

    // A code waits at `key`, or at its own key where that is not above.
    fn lower_or_insert(&mut self, code: u32, key: K)
        requires good { Good K.Cost.kind.below self.old }
        requires inside { code < self.old.cap }
        ensures good { Good K.Cost.kind.below self.new }
        ensures lends { heap_lender self.new ≡ heap_lender self.old }
        ensures waits { heap_waits self.new ≡ put_in K.Cost.kind.below (heap_waits self.old) code key }
    {
        if self.has(code) {
            self.lower(code, key);
        } else {
            self.insert(code, key);
        }
    }

    // The first code, if any, waits no more.
    fn remove_first(&mut self)
        requires { Good K.Cost.kind.below self.old }
        ensures good { Good K.Cost.kind.below self.new }
        ensures lends { heap_lender self.new ≡ heap_lender self.old }
        ensures waits { Takes K.Cost.kind.below (heap_waits self.old) (heap_waits self.new) }
    {
        if self.len > 0 {
            self.last_to_first();
            self.sink(0);
        }
    }
}

impl<'m, K: Cost> Queue for Heap<'m, K> {
    type Cost = K;

    ghost waiting = { heap_waits };

    ghost ok = { Good K.Cost.kind.below };

    ghost lender = { heap_lender };

    fn capacity(&self) -> usize {
        self.size() as usize
    }

    fn clear(&mut self) {
        self.empty();
    }

    fn put(&mut self, code: usize, cost: K) -> Result<(), Refusal> {
        let size = self.size() as usize;
        if code < size {
            self.lower_or_insert(code as u32, cost);
            Ok(())
        } else {
            Err(Refusal::CodeBeyond)
        }
    }

    fn least(&self) -> Option<(K, usize)> {
        self.top()
    }

    fn take(&mut self) -> Option<(K, usize)> {
        let found = (*self).least();
        self.remove_first();
        found
    }
}
