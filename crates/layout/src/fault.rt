//! Refusals, and what a refused caller reads of them.
ghost use Rattle.std.specs.Prelude.{◌≡◌, Some};
ghost use Rattle.layout.specs.Faults.{reported};
ghost use Rattle.layout.specs.Words.{layer_word};

use std::fmt;

/// The layer that refuses.
#[derive(Clone, Copy, PartialEq, Eq)]
pub enum Layer {
    Translation,
    Expression,
    Stage,
}

impl fmt::Display for Layer {
    ghost output = { λ layer. Some (layer_word layer) };

    fn fmt<W: fmt::Write>(&self, f: &mut fmt::Formatter<W>) -> fmt::Result {
        f.write_str(match *self {
            Layer::Translation => "translation",
            Layer::Expression => "expression",
            Layer::Stage => "stage",
        })
    }
}

/// A refusal as its reader has it.
#[derive(Clone, Copy, PartialEq, Eq)]
pub struct Report {
    pub number: u8,
    pub layer: Layer,
    pub place: usize,
}

impl Report {
    /// The refusal with a number, of a layer, at a place.
    pub fn new(number: u8, layer: Layer, place: usize) -> Report
        ensures { result ≡ record { number = number; layer = layer; place = place } }
    {
        Report {
            number,
            layer,
            place,
        }
    }
}

/// A rule that a layout record can break. Where it breaks several, the first of this list is told.
#[derive(Clone, Copy, PartialEq, Eq)]
pub enum Rule {
    /// There is room for so many layouts.
    Room,
    /// The catalogue has layouts of this kind.
    Kind,
    /// The rank is 0 to 4, and 1 to 4 unless dense.
    Rank,
    /// Each axis has a length of 1 to 4,096.
    Length,
    /// There are 1 to 65,536 places.
    Count,
    /// The axes of a diagonal layout are of one length.
    Axes,
    /// The entries of the places are in the pool.
    Pool,
    /// Each place is inside the shape.
    Inside,
    /// Each place comes before the next one.
    Order,
}

/// A refusal of a catalogue, or of the check that a catalogue is made under.
#[derive(Clone, Copy, PartialEq, Eq)]
pub enum LayoutFault {
    /// No layout or place has the number asked for.
    Unknown,
    /// Record `record` is the first that breaks a rule, and `rule` the first that it breaks.
    Faulty { record: usize, rule: Rule },
}

impl LayoutFault {
    /// The number, layer and place of the refusal.
    pub fn report(&self) -> Report
        ensures { result ≡ reported self.now }
    {
        let place = match *self {
            LayoutFault::Unknown => 0,
            LayoutFault::Faulty { record, .. } => record,
        };
        Report::new(1, Layer::Stage, place)
    }
}
