//! The interface of a catalogue.
ghost use Rattle.std.specs.Prelude.{◌≡◌, List, length};
ghost use Rattle.layout.specs.Layouts.{Layout, AllValid};
ghost use Rattle.layout.specs.Answers.{shape_asked, place_asked, number_asked};

use crate::fault::LayoutFault;
use crate::index::Index;
use crate::shape::Shape;

/// A list of layouts, asked by number. A question changes nothing.
pub trait Catalogue {
    // What the catalogue means: its layouts, by number from 0.
    ghost layouts: { Self → List Layout };

    /// How many layouts there are. Each of them is valid, which a caller learns here.
    fn count(&self) -> usize
        ensures many { result ≡ length (layouts self.now) }
        ensures valid { AllValid (layouts self.now) };

    /// The kind, rank, lengths and place count of a layout.
    fn shape(&self, layout: usize) -> Result<Shape, LayoutFault>
        ensures { result ≡ shape_asked (layouts self.now) layout };

    /// The place with a number; none where layout or place does not exist.
    fn place(&self, layout: usize, number: usize) -> Option<Index>
        ensures { result ≡ place_asked (layouts self.now) layout number };

    /// The number of an index, looked up strictly: it is found only inside the shape.
    fn number(&self, layout: usize, index: Index) -> Result<Option<usize>, LayoutFault>
        ensures { result ≡ number_asked (layouts self.now) layout index };
}
