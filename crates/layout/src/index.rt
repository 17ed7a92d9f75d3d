//! An index as a caller gives it, and the entries of the place that it names.
ghost use Rattle.std.specs.Prelude.{◌≡◌, ◌<◌};
ghost use Rattle.std.specs.Option.{option_map};
ghost use Rattle.layout.specs.Places.{entries, axis};
ghost use Rattle.layout.specs.Layouts.{below, given, inside};

/// One entry an axis; those from the rank on count as 0, whatever they are.
pub type Index = [i64; 4];

fn entry_given(rank: usize, index: Index, i: usize) -> i64
    requires { i < 4 }
    ensures { result ≡ given rank index i }
{
    if i < rank { index[i] } else { 0 }
}

fn entry_below(length: usize, x: i64) -> Option<usize>
    ensures { result ≡ below length x }
{
    usize::try_from(x).ok().filter(|n| *n < length)
}

fn entry_inside(rank: usize, lengths: [usize; 4], index: Index, i: usize) -> Option<usize>
    requires { i < 4 }
    ensures { result ≡ below (axis lengths i) (given rank index i) }
{
    entry_below(lengths[i], entry_given(rank, index, i))
}

/// The entries of an index inside a shape, whose lengths from the rank on are 1; none outside.
pub fn entries_inside(rank: usize, lengths: [usize; 4], index: Index) -> Option<[usize; 4]>
    ensures { result ≡ option_map entries (inside rank lengths index) }
{
    let a = entry_inside(rank, lengths, index, 0)?;
    let b = entry_inside(rank, lengths, index, 1)?;
    let c = entry_inside(rank, lengths, index, 2)?;
    let d = entry_inside(rank, lengths, index, 3)?;
    Some([a, b, c, d])
}
