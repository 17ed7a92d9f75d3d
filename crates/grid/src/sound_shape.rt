//! What a shape's layout answers, worked out.
ghost use Rattle.std.specs.Prelude.{◌≡◌, ◌<◌, true, Some, MatchResult};
ghost use Rattle.layout.specs.Layouts.{blank, at, strict};
ghost use Rattle.layout.specs.Layouts.{count as places_count};
ghost use Rattle.layout.specs.Answers.{shape_of, index_of, place_in};
ghost use Rattle.grid.specs.Grids.{grid_layout, sound, broken};

use crate::radix::{diagonal_number, diagonal_place, product, ravelled, unravelled};
use crate::rules::check_shape;
use crate::shapes::GridShape;
use layout::fault::Rule;
use layout::index::{Index, entries_inside};
use layout::kind::LayoutKind;
use layout::shape::Shape;

/// A shape that keeps the rules, and so a layout.
#[derive(Clone, Copy)]
pub struct SoundShape {
    shape: GridShape,
    ghost sound: { sound shape ≡ true },
}

impl SoundShape {
    /// A shape, or the first rule that it breaks.
    pub fn new(shape: GridShape) -> Result<SoundShape, Rule>
        ensures { MatchResult result (λ s. s.shape ≡ shape) (λ rule. broken shape ≡ Some rule) }
    {
        check_shape(shape)?;
        Ok(SoundShape::known(shape))
    }

    /// A shape that is known to keep the rules.
    pub fn known(shape: GridShape) -> SoundShape
        requires { sound shape ≡ true }
        ensures { result.shape ≡ shape }
    {
        SoundShape { shape }
    }

    /// How many places there are.
    #[tactic(auto, using(crate::proofs::Answering::count_dense, crate::proofs::Answering::count_diagonal))]
    pub fn count(&self) -> usize
        ensures { result ≡ places_count (grid_layout self.now.shape) }
    {
        match self.shape.kind {
            LayoutKind::Dense => product(self.shape.padded()),
            LayoutKind::Diagonal => self.shape.padded()[0],
            LayoutKind::Sparse => 0,
        }
    }

    /// The kind, rank, lengths and place count.
    pub fn shape(&self) -> Shape
        ensures { result ≡ shape_of (grid_layout self.now.shape) }
    {
        Shape {
            kind: self.shape.kind,
            rank: self.shape.rank,
            lengths: self.shape.padded(),
            count: self.count(),
        }
    }

    // The place with a number, which the layout has.
    fn place_of(&self, number: usize) -> Index
        requires { number < places_count (grid_layout self.now.shape) }
        ensures { result ≡ index_of (at (grid_layout self.now.shape) number) }
    {
        match self.shape.kind {
            LayoutKind::Dense => unravelled(self.shape.padded(), number),
            LayoutKind::Diagonal => diagonal_place(self.shape.rank, number),
            LayoutKind::Sparse => [0, 0, 0, 0],
        }
    }

    /// The place with a number, if there is one.
    pub fn place(&self, number: usize) -> Option<Index>
        ensures { result ≡ place_in (grid_layout self.now.shape) number }
    {
        if number < self.count() {
            Some(self.place_of(number))
        } else {
            None
        }
    }

    /// The number of an index, looked up strictly.
    pub fn number(&self, index: Index) -> Option<usize>
        ensures { result ≡ strict (grid_layout self.now.shape) index }
    {
        let n = self.shape.padded();
        let e = entries_inside(self.shape.rank, n, index)?;
        match self.shape.kind {
            LayoutKind::Dense => Some(ravelled(n, e)),
            LayoutKind::Diagonal => diagonal_number(self.shape.rank, e),
            LayoutKind::Sparse => None,
        }
    }
}

impl Default for SoundShape {
    ghost is_default = { λ s. grid_layout s.shape ≡ blank };

    fn default() -> SoundShape {
        SoundShape::known(GridShape {
            kind: LayoutKind::Dense,
            rank: 0,
            lengths: [0; 4],
        })
    }
}
