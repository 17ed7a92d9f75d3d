//! The places of a sparse layout.
ghost use Rattle.std.specs.Prelude.{◌≡◌, ℕ, ◌+◌, ◌-◌, ◌<◌, ◌≤◌, false, MatchOption, ◌≢◌};
ghost use Rattle.std.specs.Ordering.{MatchOrdering};
ghost use Rattle.layout.specs.Places.{Before, entries};
ghost use Rattle.table.specs.Records.{record_entry, record_place, Held, held, Ascending, place_of, inside_test, before_test, all_inside, all_before};

use crate::record::LayoutRecord;
use grid::shapes::GridShape;
use std::cmp::Ordering;

/// The order of two places: that of the first entries that differ.
#[tactic(auto, using(crate::proofs::Comparing::compared_as))]
fn compare(p: [usize; 4], q: [usize; 4]) -> Ordering
    ensures { MatchOrdering result (Before (place_of p) (place_of q)) (place_of p ≡ place_of q) (Before (place_of q) (place_of p)) }
{
    p.cmp(&q)
}

fn is_before(p: [usize; 4], q: [usize; 4]) -> bool
    ensures { result ≡ before_test (place_of p) (place_of q) }
{
    compare(p, q).is_lt()
}

/// Whether a place is inside the lengths.
fn is_inside(n: [usize; 4], p: [usize; 4]) -> bool
    ensures { result ≡ inside_test n (place_of p) }
{
    p.iter().zip(n.iter()).all(|(p, n)| p < n)
}

/// The places of a sparse record, whose entries are in the pool.
#[derive(Clone, Copy)]
pub(crate) struct Places<'a> {
    pool: &'a [u16],
    pub(crate) layout: LayoutRecord,
    ghost few: { layout.count ≤ 65536 },
    ghost held: { Held pool.now layout },
}

impl<'a> Places<'a> {
    /// The places of a record, if the pool has their entries.
    pub(crate) fn new(pool: &'a [u16], layout: LayoutRecord) -> Option<Places<'a>>
        requires rank { layout.rank ≤ 4 }
        requires count { layout.count ≤ 65536 }
        ensures { MatchOption result (held pool.now layout ≡ false) (λ p. (p.pool.now ≡ pool.now) × (p.layout ≡ layout)) }
    {
        let need = layout.count * layout.rank;
        if need <= pool.len() && layout.start <= pool.len() - need {
            Some(Places { pool, layout })
        } else {
            None
        }
    }

    /// The places of a record whose entries are known to be in the pool.
    pub(crate) fn known(pool: &'a [u16], layout: LayoutRecord) -> Places<'a>
        requires few { layout.count ≤ 65536 }
        requires held { Held pool.now layout }
        ensures { (result.pool.now ≡ pool.now) × (result.layout ≡ layout) }
    {
        Places { pool, layout }
    }

    /// Entry `i` of place `k`, 0 from the rank on.
    fn entry(&self, k: usize, i: usize) -> usize
        requires { k < self.now.layout.count }
        ensures { result ≡ record_entry self.now.pool.now self.now.layout k i }
    {
        if i < self.layout.rank {
            usize::from(self.pool[self.layout.start + k * self.layout.rank + i])
        } else {
            0
        }
    }

    /// The entries of place `k`.
    pub(crate) fn get(&self, k: usize) -> [usize; 4]
        requires { k < self.now.layout.count }
        ensures { result ≡ entries (record_place self.now.pool.now self.now.layout k) }
    {
        [0, 1, 2, 3].map(|i| self.entry(k, i))
    }

    fn place_inside(&self, n: [usize; 4], k: usize) -> bool
        requires there { k < self.now.layout.count }
        ensures { result ≡ inside_test n (record_place self.now.pool.now self.now.layout k) }
    {
        is_inside(n, self.get(k))
    }

    /// Whether each place is inside the shape.
    pub(crate) fn are_inside(&self) -> bool
        ensures { result ≡ all_inside self.now.pool.now self.now.layout }
    {
        let n = GridShape::from(self.layout).padded();
        (0..self.layout.count).all(|k| self.place_inside(n, k))
    }

    fn place_before_next(&self, k: usize) -> bool
        requires { k < self.now.layout.count - 1 }
        ensures { result ≡ before_test (record_place self.now.pool.now self.now.layout k) (record_place self.now.pool.now self.now.layout (k + 1)) }
    {
        is_before(self.get(k), self.get(k + 1))
    }

    /// Whether each place comes before the next one.
    pub(crate) fn ascend(&self) -> bool
        requires { 1 ≤ self.now.layout.count }
        ensures { result ≡ all_before self.now.pool.now self.now.layout }
    {
        (0..self.layout.count - 1).all(|k| self.place_before_next(k))
    }

    /// The number of a place, searched by halves.
    pub(crate) fn search(&self, p: [usize; 4]) -> Option<usize>
        requires { Ascending self.now.pool.now self.now.layout }
        ensures { MatchOption result ((k : ℕ) → k < self.now.layout.count → record_place self.now.pool.now self.now.layout k ≢ place_of p) (λ k. (k < self.now.layout.count) × (record_place self.now.pool.now self.now.layout k ≡ place_of p)) }
    {
        // The places are strided by a rank that is known only now, so no slice of them is there for
        // the library to search.
        let mut low = 0;
        let mut high = self.layout.count;
        while low < high {
            let mid = low + (high - low) / 2;
            match compare(self.get(mid), p) {
                Ordering::Less => low = mid + 1,
                Ordering::Equal => return Some(mid),
                Ordering::Greater => high = mid,
            }
        }
        None
    }
}
