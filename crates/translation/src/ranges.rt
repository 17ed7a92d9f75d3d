//! The ranges of a sparse source.
ghost use Rattle.std.specs.Prelude.{◌≡◌, ◌+◌, ◌-◌, ◌^◌, ◌<◌, ◌≤◌, length, pos, Some, slice_set};
ghost use Rattle.std.proofs.Math.Seq.{paste};
ghost use Rattle.layout.specs.Layouts.{count as place_count, at as place_at};
ghost use Rattle.layout.specs.Answers.{index_of};
ghost use Rattle.translation.specs.Cuts.{cut, ranges, range_entries};

use crate::cutting::Cutting;
use layout::catalogue::Catalogue;
use layout::layout_ref::LayoutRef;

/// Feeds place 0.
fn feed_first<C: Catalogue>(cutting: &mut Cutting, layout: &LayoutRef<C>)
    ensures axes { cutting.new.axes ≡ cutting.old.axes }
    ensures last { cutting.new.last ≡ Some (index_of (place_at layout.now 0)) }
{
    let _ = cutting.begins(layout.place_or_zeros(0));
}

/// Feeds place `i` after the one before it, and answers whether a range begins there.
fn feed<C: Catalogue>(cutting: &mut Cutting, layout: &LayoutRef<C>, i: usize) -> bool
    requires { cutting.old.last ≡ Some (index_of (place_at layout.now (i - 1))) }
    ensures is { result ≡ cut cutting.old.axes layout.now i }
    ensures axes { cutting.new.axes ≡ cutting.old.axes }
    ensures last { cutting.new.last ≡ Some (index_of (place_at layout.now i)) }
{
    cutting.begins(layout.place_or_zeros(i))
}

/// How many ranges a layout's places make, cut wherever the first `m` entries change.
pub(crate) fn count_ranges<C: Catalogue>(m: usize, layout: &LayoutRef<C>) -> usize
    ensures is { result ≡ length (ranges m layout.now) }
    ensures bound { result ≤ 65536 }
{
    let count = layout.count();
    let mut cutting = Cutting::new(m);
    feed_first(&mut cutting, layout);
    let mut n = 1;
    for i in 1..count {
        if feed(&mut cutting, layout, i) {
            n += 1;
        }
    }
    n
}

fn write_pair(table: &mut [i32], at: usize, a: usize, b: usize)
    requires room { at + 1 < length table.old }
    requires a { a < 2 ^ 31 }
    requires b { b < 2 ^ 31 }
    ensures { table.new ≡ slice_set (slice_set table.old at (pos a)) (at + 1) (pos b) }
{
    table[at] = a as i32;
    table[at + 1] = b as i32;
}

/// Appends each range as its start and end, and answers where the entries end. The walk is that of
/// `count_ranges`; one walk for both would hand table and position through a closure.
pub(crate) fn write_ranges<C: Catalogue>(
    m: usize,
    layout: &LayoutRef<C>,
    table: &mut [i32],
    at: usize,
) -> usize
    requires { at + length (range_entries (ranges m layout.now)) ≤ length table.old }
    ensures end { result ≡ at + length (range_entries (ranges m layout.now)) }
    ensures written { table.new ≡ paste table.old at (range_entries (ranges m layout.now)) (length (range_entries (ranges m layout.now))) }
{
    let count = layout.count();
    let mut cutting = Cutting::new(m);
    feed_first(&mut cutting, layout);
    let mut start = 0;
    let mut written = 0;
    for i in 1..count {
        if feed(&mut cutting, layout, i) {
            write_pair(table, at + written, start, i);
            start = i;
            written += 2;
        }
    }
    write_pair(table, at + written, start, count);
    at + written + 2
}
