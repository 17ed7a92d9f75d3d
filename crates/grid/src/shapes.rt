//! A shape as it is given.
ghost use Rattle.std.specs.Prelude.{◌≡◌, ◌<◌, [], ◌∷◌};
ghost use Rattle.layout.specs.Places.{axis};
ghost use Rattle.grid.specs.Grids.{grid_shape};

use layout::kind::LayoutKind;

/// A dense or diagonal layout. The first `rank` lengths count.
#[derive(Clone, Copy)]
pub struct GridShape {
    pub kind: LayoutKind,
    pub rank: usize,
    pub lengths: [usize; 4],
}

impl GridShape {
    fn axis_length(&self, i: usize) -> usize
        ensures { result ≡ axis (grid_shape self.now) i }
    {
        match self.lengths.get(i) {
            Some(length) if i < self.rank => *length,
            _ => 1,
        }
    }

    /// The lengths, 1 from the rank on.
    pub fn padded(&self) -> [usize; 4]
        ensures { result ≡ axis (grid_shape self.now) 0 ∷ axis (grid_shape self.now) 1 ∷ axis (grid_shape self.now) 2 ∷ axis (grid_shape self.now) 3 ∷ [] }
    {
        [0, 1, 2, 3].map(|i| self.axis_length(i))
    }
}
