//! Blocks of a catalogue, with their translations.
ghost use Rattle.std.specs.Prelude.{◌≡◌, ◌<◌, length, IfOk, Ok, Err, MatchResult, slice_index_or};
ghost use Rattle.layout.specs.Layouts.{blank, count as places_of};
ghost use Rattle.translation.specs.declared.kinds.TranslationTo.TheVariants.{Contiguous};
ghost use Rattle.translation.specs.Entries.{data_count};
ghost use Rattle.translation.specs.Entries.{entries_of as entries_between};
ghost use Rattle.translation.specs.Outcome.{from_asked, translated};
ghost use Rattle.report.specs.Translations.{origin_index};

use design::ask::Entries;
use layout::catalogue::Catalogue;
use layout::layout_ref::LayoutRef;
use std::alloc::{AllocError, Global};
use translation::entries::to_data_layout;
use translation::kinds::{Translation, TranslationFault, TranslationFrom, TranslationTo};
use translation::route::Route;

/// The route that a question gives.
pub(crate) fn asked_route(source: usize, via: usize, start: Entries, target: usize) -> Route
    ensures { result ≡ record { source = source; via = via; start = start.index; target = target } }
{
    let start = start.index;
    Route {
        source,
        via,
        start,
        target,
    }
}

/// A translation along a route whose layouts the catalogue has. It has as many entries as it says.
#[derive(Drop)]
pub struct Block<'a, C: Catalogue> {
    pub catalogue: &'a C,
    pub route: Route,
    pub translation: Translation,
    ghost source: { route.source < length (C.layouts catalogue.now) },
    ghost via: { route.via < length (C.layouts catalogue.now) },
    ghost target: { route.target < length (C.layouts catalogue.now) },
    ghost long: { length (entries_between (C.layouts catalogue.now) translation route.source route.via route.start route.target) ≡ data_count translation },
}

impl<'a, C: Catalogue> Block<'a, C> {
    /// The block of a route, if it has a translation.
    pub fn new(catalogue: &'a C, route: Route) -> Result<Block<'a, C>, TranslationFault>
        ensures { MatchResult result
            (λ b. (b.catalogue.now ≡ catalogue.now) × (b.route ≡ route) × (Ok b.translation ≡ translated (C.layouts catalogue.now) route.source route.via route.start route.target))
            (λ f. Err f ≡ translated (C.layouts catalogue.now) route.source route.via route.start route.target) }
    {
        let translation = Translation::new(catalogue, route)?;
        Ok(Block {
            catalogue,
            route,
            translation,
        })
    }

    /// How a source makes the elements of a via, as a block with that via alone.
    pub fn of_source(
        catalogue: &'a C,
        source: usize,
        via: usize,
    ) -> Result<Block<'a, C>, TranslationFault>
        ensures { MatchResult result
            (λ b. (b.catalogue.now ≡ catalogue.now)
            × (b.route ≡ record { source = source; via = via; start = origin_index; target = via })
            × (b.translation ≡ record { from = b.translation.from; to = Contiguous 0 0; elements = places_of (slice_index_or (C.layouts catalogue.now) via blank) })
            × (Ok b.translation.from ≡ from_asked (C.layouts catalogue.now) source via))
            (λ f. Err f ≡ from_asked (C.layouts catalogue.now) source via) }
    {
        let from = TranslationFrom::new(catalogue, source, via)?;
        let elements = LayoutRef::new(catalogue, via)?.count() as u32;
        Ok(Block {
            catalogue,
            route: Route {
                source,
                via,
                start: [0, 0, 0, 0],
                target: via,
            },
            translation: Translation {
                from,
                to: TranslationTo::Contiguous { start: 0, end: 0 },
                elements,
            },
        })
    }

    /// Its entries in the index table.
    pub fn entries(&self, heap: Global) -> Result<Vec<i32>, AllocError>
        ensures { IfOk result (λ v. v.items ≡ entries_between (C.layouts self.now.catalogue.now) self.now.translation self.now.route.source self.now.route.via self.now.route.start self.now.route.target) }
    {
        let mut table = Vec::from_elem(heap, 0, self.translation.data_len())?;
        // The table has as many entries as there are, so this refuses nothing.
        let _ = to_data_layout(
            self.catalogue,
            self.translation,
            self.route,
            table.as_mut_slice(),
            0,
        );
        Ok(table)
    }
}
