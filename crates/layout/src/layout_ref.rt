//! A layout that a catalogue has.
ghost use Rattle.std.specs.Prelude.{◌≡◌, ℕ, ◌<◌, ◌≤◌, length, Decides, slice_index_or};
ghost use Rattle.layout.specs.Layouts.{Layout, Valid, AllValid, blank, at, count, rank, strict, wide, widened, widen};
ghost use Rattle.layout.specs.Answers.{asked, shape_of, index_of, place_in};

use crate::catalogue::Catalogue;
use crate::fault::LayoutFault;
use crate::index::Index;
use crate::kind::LayoutKind;
use crate::shape::Shape;
use std::marker::Model;

fn widened_entry(length: usize, entry: i64) -> i64
    ensures { result ≡ widened length entry }
{
    if length == 1 && entry > 0 { 0 } else { entry }
}

fn widened_index(lengths: [usize; 4], index: Index) -> Index
    ensures { result ≡ widen lengths index }
{
    [
        widened_entry(lengths[0], index[0]),
        widened_entry(lengths[1], index[1]),
        widened_entry(lengths[2], index[2]),
        widened_entry(lengths[3], index[3]),
    ]
}

/// A layout of a catalogue, which has it and is valid. In clauses it is the layout itself.
#[derive(Drop)]
pub struct LayoutRef<'a, C: Catalogue> {
    catalogue: &'a C,
    number: usize,
    shape: Shape,
}

impl<'a, C: Catalogue> Model for LayoutRef<'a, C> {
    ghost Value = { Layout };

    ghost view = { λ l. slice_index_or (C.layouts l.catalogue.now) l.number blank };

    ghost invariant = { λ l. (l.number < length (C.layouts l.catalogue.now)) × (l.shape ≡ shape_of (slice_index_or (C.layouts l.catalogue.now) l.number blank)) × AllValid (C.layouts l.catalogue.now) };
}

impl<'a, C: Catalogue> LayoutRef<'a, C> {
    /// The layout with a number, if the catalogue has it.
    pub fn new(catalogue: &'a C, number: usize) -> Result<LayoutRef<'a, C>, LayoutFault>
        ensures is { result ≡ asked (λ l. l) (C.layouts catalogue.now) number }
        ensures valid { AllValid (C.layouts catalogue.now) }
    {
        // The count says that every layout is valid.
        let _ = catalogue.count();
        let shape = catalogue.shape(number)?;
        Ok(LayoutRef {
            catalogue,
            number,
            shape,
        })
    }

    /// How many places it has.
    pub fn count(&self) -> usize
        ensures is { result ≡ count self.now }
        ensures valid { Valid self.now }
    {
        self.shape.count
    }

    /// How many axes it has.
    pub fn rank(&self) -> usize
        ensures is { result ≡ rank self.now }
        ensures few { result ≤ 4 }
    {
        self.shape.rank
    }

    /// The kind, rank, lengths and place count.
    pub fn shape(&self) -> Shape
        ensures is { result ≡ shape_of self.now }
        ensures valid { Valid self.now }
    {
        self.shape
    }

    /// The place with a number, if there is one.
    pub fn place(&self, number: usize) -> Option<Index>
        ensures is { result ≡ place_in self.now number }
        ensures valid { Valid self.now }
    {
        self.catalogue.place(self.number, number)
    }

    /// The place with a number; four zeros where there is none.
    pub fn place_or_zeros(&self, number: usize) -> Index
        ensures is { result ≡ index_of (at self.now number) }
        ensures valid { Valid self.now }
    {
        self.place(number).unwrap_or([0, 0, 0, 0])
    }

    /// The number of an index, looked up strictly.
    pub fn number(&self, index: Index) -> Option<usize>
        ensures is { result ≡ strict self.now index }
        ensures valid { Valid self.now }
    {
        match self.catalogue.number(self.number, index) {
            Ok(number) => number,
            Err(_) => unreachable(),
        }
    }

    /// The number of an index, looked up wide: an entry above 0 on an axis of length 1 counts as 0,
    /// except in diagonal layouts.
    pub fn find_nnz_index(&self, index: Index) -> Option<usize>
        ensures { result ≡ wide self.now index }
    {
        let index = match self.shape.kind {
            LayoutKind::Diagonal => index,
            LayoutKind::Dense | LayoutKind::Sparse => widened_index(self.shape.lengths, index),
        };
        self.number(index)
    }

    /// Whether the place with a number is another's too.
    fn same_place(&self, other: &LayoutRef<C>, k: usize) -> bool
        ensures { Decides result (place_in self.now k ≡ place_in other.now k) }
    {
        self.place(k) == other.place(k)
    }

    /// Whether the places are another's too, as many as this layout has.
    fn same_places(&self, other: &LayoutRef<C>) -> bool
        ensures { Decides result ((k : ℕ) → k < count self.now → place_in self.now k ≡ place_in other.now k) }
    {
        (0..self.count()).all(|k| self.same_place(other, k))
    }

    /// Whether kind, shape and places are the same as another's.
    pub fn eq_nonzeros(&self, other: &LayoutRef<C>) -> bool
        ensures { Decides result (self.now ≡ other.now) }
    {
        self.shape() == other.shape() && self.same_places(other)
    }
}
