//! What a record's layout answers.
ghost use Rattle.std.specs.Prelude.{◌≡◌, true, Some, MatchResult};
ghost use Rattle.layout.specs.Layouts.{strict};
ghost use Rattle.layout.specs.Answers.{shape_of, place_in};
ghost use Rattle.table.specs.Records.{record_layout, record_broken, kept};

use crate::record::LayoutRecord;
use crate::sparse::SparseLayout;
use grid::shapes::GridShape;
use grid::sound_shape::SoundShape;
use layout::fault::Rule;
use layout::index::Index;
use layout::kind::LayoutKind;
use layout::shape::Shape;

/// The layout of a record that keeps the rules. Each question looks at the kind that is recorded: an
/// enum of the two would be written out for each.
#[derive(Clone, Copy)]
pub(crate) struct KeptLayout<'a> {
    pool: &'a [u16],
    layout: LayoutRecord,
    ghost kept: { kept pool.now layout ≡ true },
}

impl<'a> KeptLayout<'a> {
    ghost use Rattle.table.specs.Layouts.{layout_of};

    /// The layout of a record, or the first rule that the record breaks.
    pub(crate) fn new(pool: &'a [u16], layout: LayoutRecord) -> Result<KeptLayout<'a>, Rule>
        ensures { MatchResult result (λ l. (kept pool.now layout ≡ true) × (layout_of l ≡ record_layout pool.now layout)) (λ rule. record_broken pool.now layout ≡ Some rule) }
    {
        match layout.kind {
            LayoutKind::Dense | LayoutKind::Diagonal => {
                SoundShape::new(GridShape::from(layout))?;
            },
            LayoutKind::Sparse => {
                SparseLayout::new(pool, layout)?;
            },
        }
        Ok(KeptLayout { pool, layout })
    }

    /// The layout of a record that is known to keep the rules.
    pub(crate) fn known(pool: &'a [u16], layout: LayoutRecord) -> KeptLayout<'a>
        requires { kept pool.now layout ≡ true }
        ensures { layout_of result ≡ record_layout pool.now layout }
    {
        KeptLayout { pool, layout }
    }

    /// The kind, rank, lengths and place count.
    pub(crate) fn shape(&self) -> Shape
        ensures { result ≡ shape_of (layout_of self.now) }
    {
        let KeptLayout { pool, layout } = *self;
        match layout.kind {
            LayoutKind::Dense | LayoutKind::Diagonal => {
                SoundShape::known(GridShape::from(layout)).shape()
            },
            LayoutKind::Sparse => SparseLayout::known(pool, layout).shape(),
        }
    }

    /// The place with a number, if there is one.
    pub(crate) fn place(&self, number: usize) -> Option<Index>
        ensures { result ≡ place_in (layout_of self.now) number }
    {
        let KeptLayout { pool, layout } = *self;
        match layout.kind {
            LayoutKind::Dense | LayoutKind::Diagonal => {
                SoundShape::known(GridShape::from(layout)).place(number)
            },
            LayoutKind::Sparse => SparseLayout::known(pool, layout).place(number),
        }
    }

    /// The number of an index, looked up strictly.
    pub(crate) fn number(&self, index: Index) -> Option<usize>
        ensures { result ≡ strict (layout_of self.now) index }
    {
        let KeptLayout { pool, layout } = *self;
        match layout.kind {
            LayoutKind::Dense | LayoutKind::Diagonal => {
                SoundShape::known(GridShape::from(layout)).number(index)
            },
            LayoutKind::Sparse => SparseLayout::known(pool, layout).number(index),
        }
    }
}
