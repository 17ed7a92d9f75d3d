//! What the reader is told of a block.
ghost use Rattle.std.specs.Prelude.{◌≡◌};
ghost use Rattle.reader.specs.Laws.{reported};

use layout::fault::{Layer, Report};
use translation::kinds::{TranslationFrom, TranslationTo};

/// How a block's elements are made and where they go.
#[derive(Clone, Copy)]
pub struct BlockRecord {
    pub from: TranslationFrom,
    pub to: TranslationTo,
    /// How many places the via, the source and the target have.
    pub via: usize,
    pub source: usize,
    pub target: usize,
    /// Where in the index table the ranges begin, and the listed destinations.
    pub ranges: usize,
    pub list: usize,
}

/// Why a record is not followed.
#[derive(Clone, Copy, PartialEq, Eq)]
pub enum ReaderFault {
    /// A slice is shorter than its part.
    Short,
}

impl ReaderFault {
    /// The number, layer and place of the refusal.
    pub fn report(self) -> Report
        ensures { result ≡ reported self }
    {
        match self {
            ReaderFault::Short => Report::new(23, Layer::Stage, 0),
        }
    }
}
