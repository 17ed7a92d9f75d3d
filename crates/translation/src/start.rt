//! A block's start in its target.
ghost use Rattle.std.specs.Prelude.{◌≡◌, ℕ, ◌<◌, ◌≤◌, pos, ◌+ℤ◌, ◌≤ℤ◌, ◌<ℤ◌, slice_index_or};
ghost use Rattle.layout.specs.Layouts.{below};
ghost use Rattle.translation.specs.Tos.{start_refused, strays as strays_rule, Told};

use layout::index::Index;

/// Whether a start entry beyond a rank is not 0.
fn strays(rank: usize, start: Index) -> bool
    ensures { result ≡ strays_rule rank start }
{
    start.iter().skip(rank).any(|entry| *entry != 0)
}

/// Whether a start does not fit a via and a target of these ranks.
pub(crate) fn is_refused(via_rank: usize, start: Index, target_rank: usize) -> bool
    ensures { result ≡ start_refused via_rank start target_rank }
{
    target_rank < via_rank || strays(target_rank, start)
}

/// A start entry plus a place's entry, as far as a lookup tells: past the longest axis no entry is found.
fn shifted_entry(start: i64, entry: i64) -> i64
    requires low { pos 0 ≤ℤ entry }
    requires high { entry <ℤ pos 4096 }
    ensures { (n : ℕ) → n ≤ 4096 → below n result ≡ below n (start +ℤ entry) }
{
    if start > 4096 { start } else { start + entry }
}

/// A start plus a place, as far as a lookup tells.
pub(crate) fn shifted(start: Index, place: Index) -> Index
    requires low { (i : ℕ) → pos 0 ≤ℤ slice_index_or place i (pos 0) }
    requires high { (i : ℕ) → slice_index_or place i (pos 0) <ℤ pos 4096 }
    ensures a { Told result start place 0 }
    ensures b { Told result start place 1 }
    ensures c { Told result start place 2 }
    ensures d { Told result start place 3 }
{
    [
        shifted_entry(start[0], place[0]),
        shifted_entry(start[1], place[1]),
        shifted_entry(start[2], place[2]),
        shifted_entry(start[3], place[3]),
    ]
}
