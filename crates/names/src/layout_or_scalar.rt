//! A layout by its number, or the scalar.
ghost use Rattle.std.specs.Prelude.{◌≡◌};
ghost use Rattle.std.specs.Option.{unwrap_or};
ghost use Rattle.layout.specs.Layouts.{Layout, Valid, blank, at, strict, wide};
ghost use Rattle.layout.specs.Answers.{shape_of, index_of};
ghost use Rattle.names.specs.Variables.{layout_of};

use layout::catalogue::Catalogue;
use layout::index::Index;
use layout::kind::LayoutKind;
use layout::layout_ref::LayoutRef;
use layout::shape::Shape;
use std::marker::Model;

const SCALAR: Shape = Shape {
    kind: LayoutKind::Dense,
    rank: 0,
    lengths: [1, 1, 1, 1],
    count: 1,
};

/// A layout of a catalogue, or the scalar, which stands for one that does not exist. In clauses it
/// is the layout itself.
#[derive(Drop)]
pub(crate) struct LayoutOrScalar<'a, C: Catalogue> {
    layout: Option<LayoutRef<'a, C>>,
}

impl<'a, C: Catalogue> Model for LayoutOrScalar<'a, C> {
    ghost Value = { Layout };

    ghost view = { λ l. unwrap_or l.layout blank };
}

impl<'a, C: Catalogue> LayoutOrScalar<'a, C> {
    /// The layout with a number; the scalar where there is no number or no such layout.
    pub(crate) fn new(catalogue: &'a C, number: Option<usize>) -> LayoutOrScalar<'a, C>
        ensures { result ≡ layout_of (C.layouts catalogue.now) number }
    {
        let layout = match number {
            Some(n) => LayoutRef::new(catalogue, n).ok(),
            None => None,
        };
        LayoutOrScalar { layout }
    }

    /// The kind, rank, lengths and place count.
    pub(crate) fn shape(&self) -> Shape
        ensures is { result ≡ shape_of self.now }
        ensures valid { Valid self.now }
    {
        match &self.layout {
            Some(layout) => layout.shape(),
            None => SCALAR,
        }
    }

    /// The place with a number; four zeros where there is none.
    pub(crate) fn place_or_zeros(&self, number: usize) -> Index
        ensures { result ≡ index_of (at self.now number) }
    {
        match &self.layout {
            Some(layout) => layout.place_or_zeros(number),
            None => [0, 0, 0, 0],
        }
    }

    /// The number of an index, looked up strictly.
    pub(crate) fn number(&self, index: Index) -> Option<usize>
        ensures { result ≡ strict self.now index }
    {
        match &self.layout {
            Some(layout) => layout.number(index),
            None => Some(0),
        }
    }

    /// The number of an index, looked up wide.
    pub(crate) fn find_nnz_index(&self, index: Index) -> Option<usize>
        ensures { result ≡ wide self.now index }
    {
        match &self.layout {
            Some(layout) => layout.find_nnz_index(index),
            None => Some(0),
        }
    }
}
