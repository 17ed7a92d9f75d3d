//! Rows of places that are intervals, and the ends of rows.
ghost use Rattle.std.specs.Prelude.{◌+◌, ◌<◌, ◌≤◌, ◌⊎◌, Decides};
ghost use Rattle.overlap.specs.Rows.{Common};

/// How far from `a` the first place is that `n` places from `a` on and `m` places from `b` on share.
pub(crate) fn first_common(a: usize, n: usize, b: usize, m: usize) -> Option<usize>
    requires low { a + n ≤ 65536 }
    requires other_low { b + m ≤ 65536 }
    ensures { Common a n b m result }
{
    let place = a.max(b);
    if place < a + n && place < b + m {
        Some(place - a)
    } else {
        None
    }
}

/// Whether the places from `a` to `z` lie all before or all past those from `b` to `y`.
pub(crate) fn lie_apart(a: usize, z: usize, b: usize, y: usize) -> bool
    ensures { Decides result ((z < b) ⊎ (y < a)) }
{
    z < b || y < a
}
