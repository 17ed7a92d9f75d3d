//! Cutting a row of places into ranges.
ghost use Rattle.std.specs.Prelude.{◌≡◌, Some, None, Decides};
ghost use Rattle.translation.specs.Cuts.{Begins};

use crate::agree::agree;
use layout::index::Index;

/// Is fed places one by one, and says of each whether a range begins there: at the first, and
/// wherever the first `axes` entries change. It sees no catalogue.
#[derive(Clone, Copy)]
pub(crate) struct Cutting {
    axes: usize,
    last: Option<Index>,
}

impl Cutting {
    pub(crate) fn new(axes: usize) -> Cutting
        ensures { (result.axes ≡ axes) × (result.last ≡ None) }
    {
        Cutting { axes, last: None }
    }

    /// Takes the next place.
    pub(crate) fn begins(&mut self, place: Index) -> bool
        ensures answer { Decides result (Begins self.old.axes self.old.last place) }
        ensures after { (self.new.axes ≡ self.old.axes) × (self.new.last ≡ Some place) }
    {
        match self.last.replace(place) {
            Some(last) => !agree(self.axes, last, place),
            None => true,
        }
    }
}
