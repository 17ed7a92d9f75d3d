//! The grid catalogue.
ghost use Rattle.std.specs.Prelude.{◌≡◌, MatchResult};
ghost use Rattle.grid.specs.Grids.{grid_layouts, FirstFault};

use crate::shapes::GridShape;
use crate::sound_shape::SoundShape;
use arrayvec::ArrayVec;
use layout::catalogue::Catalogue;
use layout::fault::{LayoutFault, Rule};
use layout::index::Index;
use layout::shape::Shape;
use std::marker::Model;

/// Up to 16 dense or diagonal layouts. In clauses they are their shapes.
#[derive(Drop)]
pub struct Grid {
    shapes: ArrayVec<SoundShape, 16>,
}

impl Model for Grid {
    ghost use Rattle.std.specs.Prelude.{List};
    ghost use Rattle.grid.specs.declared.shapes.GridShape.{GridShape};
    ghost use Rattle.grid.specs.Shapes.{shapes_of};

    ghost Value = { List GridShape };

    ghost view = { λ g. shapes_of g.shapes.items };
}

impl Grid {
    /// The catalogue of shapes, or the first of them that breaks a rule.
    pub fn new(shapes: &[GridShape]) -> Result<Grid, LayoutFault>
        ensures { MatchResult result (λ g. g ≡ shapes.now) (λ f. FirstFault shapes.now f) }
    {
        if shapes.len() > 16 {
            return Err(LayoutFault::Faulty {
                record: 16,
                rule: Rule::Room,
            });
        }
        let mut kept = ArrayVec::new();
        for (k, shape) in shapes.iter().enumerate() {
            match SoundShape::new(*shape) {
                Ok(sound) => kept.push(sound),
                Err(rule) => return Err(LayoutFault::Faulty { record: k, rule }),
            }
        }
        Ok(Grid { shapes: kept })
    }
}

impl Catalogue for Grid {
    ghost layouts = { grid_layouts };

    fn count(&self) -> usize {
        self.shapes.len()
    }

    fn shape(&self, layout: usize) -> Result<Shape, LayoutFault> {
        let shape = self.shapes.get(layout).ok_or(LayoutFault::Unknown)?;
        Ok(shape.shape())
    }

    fn place(&self, layout: usize, number: usize) -> Option<Index> {
        self.shapes.get(layout)?.place(number)
    }

    fn number(&self, layout: usize, index: Index) -> Result<Option<usize>, LayoutFault> {
        let shape = self.shapes.get(layout).ok_or(LayoutFault::Unknown)?;
        Ok(shape.number(index))
    }
}
