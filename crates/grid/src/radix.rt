//! Places worked out from their numbers, and numbers from places.
ghost use Rattle.std.specs.Prelude.{◌≡◌, ℕ, ◌<◌, ◌≤◌, Decides, MatchOption, slice_index};
ghost use Rattle.layout.specs.Places.{place};
ghost use Rattle.layout.specs.Layouts.{Level};
ghost use Rattle.layout.specs.Answers.{index_of};
ghost use Rattle.layout.specs.Radix.{size, ravel, unravel, along};
ghost use Rattle.layout.specs.Rules.{equal_axes};

use layout::index::Index;

/// How many indices are inside a shape.
pub(crate) fn product(n: [usize; 4]) -> usize
    requires { (i : ℕ) → slice_index n i ≤ 4096 }
    ensures { result ≡ size n }
{
    n[0] * n[1] * n[2] * n[3]
}

/// The number of a place inside a shape.
pub(crate) fn ravelled(n: [usize; 4], p: [usize; 4]) -> usize
    requires lengths { (i : ℕ) → slice_index n i ≤ 4096 }
    requires entries { (i : ℕ) → slice_index p i < 4096 }
    ensures { result ≡ ravel n (place (slice_index p 0) (slice_index p 1) (slice_index p 2) (slice_index p 3)) }
{
    ((p[0] * n[1] + p[1]) * n[2] + p[2]) * n[3] + p[3]
}

/// The place with a number.
pub(crate) fn unravelled(n: [usize; 4], number: usize) -> Index
    requires lengths { (i : ℕ) → i < 4 → 1 ≤ slice_index n i }
    requires small { number < 65536 }
    ensures { result ≡ index_of (unravel n number) }
{
    let d = number % n[3];
    let rest = number / n[3];
    let c = rest % n[2];
    let rest = rest / n[2];
    let b = rest % n[1];
    let a = rest / n[1];
    [a as i64, b as i64, c as i64, d as i64]
}

/// The place of a diagonal with a number.
pub(crate) fn diagonal_place(rank: usize, number: usize) -> Index
    requires { number < 65536 }
    ensures { result ≡ index_of (along rank number) }
{
    let k = number as i64;
    [
        k,
        if 1 < rank { k } else { 0 },
        if 2 < rank { k } else { 0 },
        if 3 < rank { k } else { 0 },
    ]
}

/// Whether the first `rank` numbers are equal.
pub(crate) fn is_level(rank: usize, n: [usize; 4]) -> bool
    ensures axes { result ≡ equal_axes rank n }
    ensures level { Decides result (Level rank (place (slice_index n 0) (slice_index n 1) (slice_index n 2) (slice_index n 3))) }
{
    (1..4).all(|i| rank <= i || n[i] == n[0])
}

/// The number of a place of a diagonal; none off it.
pub(crate) fn diagonal_number(rank: usize, e: [usize; 4]) -> Option<usize>
    ensures { MatchOption result (Level rank (place (slice_index e 0) (slice_index e 1) (slice_index e 2) (slice_index e 3)) → ⊥) (λ k. Level rank (place (slice_index e 0) (slice_index e 1) (slice_index e 2) (slice_index e 3)) × (k ≡ slice_index e 0)) }
{
    is_level(rank, e).then_some(e[0])
}
