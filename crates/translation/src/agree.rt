//! Places that agree on their first entries.
ghost use Rattle.std.specs.Prelude.{◌≡◌, ◌<◌, ◌≤◌, take, pos, Decides, slice_index_or};
ghost use Rattle.layout.specs.Layouts.{rank, at, count as place_count};
ghost use Rattle.grouping.specs.Keys.{agrees, Covered};
ghost use Rattle.translation.specs.Cuts.{Steps};

use layout::catalogue::Catalogue;
use layout::index::Index;
use layout::layout_ref::LayoutRef;

/// Whether entry `i` of two indices is the same, as far as it is among the first `m`.
fn same_at(m: usize, p: Index, q: Index, i: usize) -> bool
    requires { i < 4 }
    ensures { Decides result (i < m → slice_index_or p i (pos 0) ≡ slice_index_or q i (pos 0)) }
{
    m <= i || p[i] == q[i]
}

/// Whether two indices agree on their first `m` entries. The four are asked for one by one: slices of
/// a length that is known only now take longer to compare.
pub(crate) fn agree(m: usize, p: Index, q: Index) -> bool
    ensures { Decides result (take m p ≡ take m q) }
{
    (0..4).all(|i| same_at(m, p, q, i))
}

/// Whether place `i` of one layout and place `j` of another agree on their first `m` entries.
fn places_agree<C: Catalogue>(
    m: usize,
    a: &LayoutRef<C>,
    i: usize,
    b: &LayoutRef<C>,
    j: usize,
) -> bool
    ensures { result ≡ agrees m (at a.now i) (at b.now j) }
{
    agree(m, a.place_or_zeros(i), b.place_or_zeros(j))
}

/// Which of the places `j` and `j + 1` of the shorter row place `i` of the longer agrees with.
fn step_under<C: Catalogue>(
    m: usize,
    long: &LayoutRef<C>,
    i: usize,
    short: &LayoutRef<C>,
    j: usize,
) -> Option<usize>
    requires { j < place_count short.now }
    ensures { Steps m long.now i short.now j result }
{
    let count = short.count();
    if places_agree(m, long, i, short, j) {
        return Some(j);
    }
    if j + 1 < count && places_agree(m, long, i, short, j + 1) {
        return Some(j + 1);
    }
    None
}

/// Whether each place of the longer row agrees with one of the shorter on their first `m` entries, and each of the shorter with one of the longer. Both ascend, so one pass tells.
pub(crate) fn covers<C: Catalogue>(m: usize, long: &LayoutRef<C>, short: &LayoutRef<C>) -> bool
    requires { rank short.now ≤ m }
    ensures { Decides result (Covered m long.now short.now) }
{
    let long_count = long.count();
    let short_count = short.count();
    if !places_agree(m, long, 0, short, 0) {
        return false;
    }
    let mut j = 0;
    for i in 1..long_count {
        let Some(next) = step_under(m, long, i, short, j) else {
            return false;
        };
        j = next;
    }
    j + 1 == short_count
}
