//! A layout as it is recorded.
ghost use Rattle.std.specs.Prelude.{◌≡◌};
ghost use Rattle.table.specs.Records.{grid_of};

use grid::shapes::GridShape;
use layout::kind::LayoutKind;

/// The first `rank` lengths count. `start` and `count` are read of a sparse layout alone: the
/// entries of its place `k` stand in the pool from `start + k * rank` on.
#[derive(Clone, Copy)]
pub struct LayoutRecord {
    pub kind: LayoutKind,
    pub rank: usize,
    pub lengths: [usize; 4],
    pub start: usize,
    pub count: usize,
}

impl From<LayoutRecord> for GridShape {
    ghost from_gives = { λ r g. g ≡ grid_of r };

    fn from(r: LayoutRecord) -> GridShape {
        let lengths = r.lengths;
        GridShape {
            kind: r.kind,
            rank: r.rank,
            lengths,
        }
    }
}
