//! The places that blocks store into, as rows.
ghost use Rattle.std.specs.Prelude.{◌≡◌, ◌<◌, IfSome};
ghost use Rattle.layout.specs.Layouts.{Layout};
ghost use Rattle.translation.specs.Laws.{Lawful};
ghost use Rattle.overlap.specs.Clashes.{Orderly};
ghost use Rattle.reader.specs.Accepted.{Spanned};
ghost use Rattle.overlap.specs.Rows.{Places, Going, Lined, Running, new_row, old_row};

use layout::catalogue::Catalogue;
use layout::index::Index;
use layout::layout_ref::LayoutRef;
use reader::record::BlockRecord;
use std::marker::Model;
use translation::kinds::{Translation, TranslationTo};
use translation::target::destination;

/// A row of places, of which each is above the one before it.
pub(crate) trait Row {
    // The places, by number from 0.
    ghost places: { Self → Places };

    /// How many places there are.
    fn len(&self) -> usize
        ensures is { result ≡ (places self.now).many }
        ensures lined { Lined (places self.now) };

    /// The place with a number.
    fn place(&self, k: usize) -> usize
        requires { k < (places self.now).many }
        ensures { result ≡ (places self.now).at k };

    /// The first of the places, where they are told to follow one another.
    fn start(&self) -> Option<usize>
        ensures { IfSome result (Running (places self.now)) };
}

/// Where a new block goes.
#[derive(Drop)]
pub(crate) struct NewRow<'a, C: Catalogue> {
    to: TranslationTo,
    count: usize,
    via: &'a LayoutRef<'a, C>,
    start: Index,
    target: &'a LayoutRef<'a, C>,
}

impl<'a, C: Catalogue> Model for NewRow<'a, C> {
    ghost Value = { Going };

    ghost view = { λ r. record { to = r.to; count = r.count; via = r.via.now; start = r.start; target = r.target.now } };

    ghost invariant = { λ r. (0 < r.count) × Lined (new_row (record { to = r.to; count = r.count; via = r.via.now; start = r.start; target = r.target.now })) };
}

impl<'a, C: Catalogue> NewRow<'a, C> {
    /// Where a block goes by its accepted translation.
    pub(crate) fn new(
        translation: Translation,
        via: &'a LayoutRef<'a, C>,
        start: Index,
        target: &'a LayoutRef<'a, C>,
    ) -> NewRow<'a, C>
        requires { (source : Layout) × Lawful source via.now start target.now translation }
        ensures { result ≡ record { to = translation.to; count = translation.elements; via = via.now; start = start; target = target.now } }
    {
        // The counts say that both layouts are valid.
        let _ = via.count();
        let _ = target.count();
        NewRow {
            to: translation.to,
            count: translation.elements as usize,
            via,
            start,
            target,
        }
    }
}

impl<'a, C: Catalogue> Row for NewRow<'a, C> {
    ghost places = { new_row };

    fn len(&self) -> usize {
        self.count
    }

    fn place(&self, k: usize) -> usize {
        match self.to {
            TranslationTo::Contiguous { start, .. } => start + k,
            TranslationTo::Listed => {
                destination(self.via, self.start, self.target, k).unwrap_or(0)
            }
        }
    }

    fn start(&self) -> Option<usize> {
        match self.to {
            TranslationTo::Contiguous { start, .. } => Some(start),
            TranslationTo::Listed => None,
        }
    }
}

/// Where an earlier block went.
#[derive(Drop)]
pub(crate) struct OldRow<'a> {
    block: BlockRecord,
    indices: &'a [i32],
}

impl<'a> Model for OldRow<'a> {
    ghost Value = { Spanned };

    ghost view = { λ r. record { block = r.block; indices = r.indices.now } };

    ghost invariant = { λ r. Orderly r.block r.indices.now };
}

impl<'a> OldRow<'a> {
    /// Where a block went by its record and an index table that has its entries.
    pub(crate) fn new(block: BlockRecord, indices: &'a [i32]) -> OldRow<'a>
        requires { Orderly block indices.now }
        ensures { result ≡ record { block = block; indices = indices.now } }
    {
        OldRow { block, indices }
    }
}

impl<'a> Row for OldRow<'a> {
    ghost places = { old_row };

    fn len(&self) -> usize {
        self.block.via
    }

    fn place(&self, k: usize) -> usize {
        match self.block.to {
            TranslationTo::Contiguous { start, .. } => start + k,
            TranslationTo::Listed => self.indices[self.block.list + k] as usize,
        }
    }

    fn start(&self) -> Option<usize> {
        match self.block.to {
            TranslationTo::Contiguous { start, .. } => Some(start),
            TranslationTo::Listed => None,
        }
    }
}
