//! The translation of a block.
ghost use Rattle.std.specs.Prelude.{◌≡◌, ◌<◌, min, length, IfOk, Some, MatchOption};
ghost use Rattle.layout.specs.Layouts.{AllValid, rank, count as place_count};
ghost use Rattle.layout.specs.Answers.{shape_of};
ghost use Rattle.translation.specs.Cuts.{covered, ranges};
ghost use Rattle.translation.specs.Froms.{from_of, elements_of, Long};
ghost use Rattle.translation.specs.Laws.{LawfulIn, OverListed};
ghost use Rattle.translation.specs.Outcome.{ranges_fit as fit_of, from_asked, translated_by, translating, translated};

use crate::agree::covers;
use crate::kinds::{Translation, TranslationFault, TranslationFrom, TranslationTo};
use crate::ranges::count_ranges;
use crate::route::{Route, Routed};
use crate::source::from_shapes;
use crate::start::is_refused;
use layout::catalogue::Catalogue;
use layout::layout_ref::LayoutRef;

/// How many elements are made; none where they are more than any layout has places.
fn elements<C: Catalogue>(
    from: TranslationFrom,
    source: &LayoutRef<C>,
    via_rank: usize,
) -> Option<usize>
    requires { Long from }
    ensures { MatchOption result (65536 < elements_of from (place_count source.now) (length (ranges via_rank source.now))) (λ n. n ≡ elements_of from (place_count source.now) (length (ranges via_rank source.now))) }
{
    let count = source.count();
    match from {
        TranslationFrom::DenseContraction { contract_len, .. } => Some(count / contract_len),
        TranslationFrom::DiagonalContraction { .. } | TranslationFrom::ElementWise => Some(count),
        TranslationFrom::SparseContraction { .. } => Some(count_ranges(via_rank, source)),
        TranslationFrom::Broadcast { broadcast_len, .. } => count.checked_mul(broadcast_len),
    }
}

/// Whether each source place lies over a via place, and each via place under a source place.
fn is_covered<C: Catalogue>(source: &LayoutRef<C>, via: &LayoutRef<C>) -> bool
    ensures { result ≡ covered (min (rank source.now) (rank via.now)) source.now via.now }
{
    let s = source.rank();
    let v = via.rank();
    if v <= s {
        covers(v, source, via)
    } else {
        covers(s, via, source)
    }
}

/// Refusals 5 to 7, of a block that has a kind.
fn translate_by<C: Catalogue>(
    from: TranslationFrom,
    block: &Routed<C>,
) -> Result<Translation, TranslationFault>
    requires { Long from }
    ensures { result ≡ translated_by (Some from) block.now.source block.now.via block.now.start block.now.target }
{
    let via = block.via.shape();
    let made = elements(from, &block.source, via.rank);
    if made != Some(via.count) {
        return Err(TranslationFault::Elements);
    }
    if !is_covered(&block.source, &block.via) {
        return Err(TranslationFault::Uncovered);
    }
    Ok(Translation {
        from,
        to: TranslationTo::new(block)?,
        elements: via.count as u32,
    })
}

/// The outcome for layouts that there are.
fn translate<C: Catalogue>(block: &Routed<C>) -> Result<Translation, TranslationFault>
    ensures { result ≡ translating block.now.source block.now.via block.now.start block.now.target }
{
    let via_rank = block.via.rank();
    let target_rank = block.target.rank();
    if is_refused(via_rank, block.start, target_rank) {
        return Err(TranslationFault::Start);
    }
    let from = from_shapes(&block.source, &block.via).ok_or(TranslationFault::NoTranslation)?;
    translate_by(from, block)
}

/// Whether the ranges of a sparse contraction are as many as the via's places.
fn ranges_fit<C: Catalogue>(
    from: TranslationFrom,
    source: &LayoutRef<C>,
    via: &LayoutRef<C>,
) -> bool
    ensures { result ≡ fit_of from source.now via.now }
{
    let shape = via.shape();
    match from {
        TranslationFrom::SparseContraction { .. } => count_ranges(shape.rank, source)
            == shape.count,
        _ => true,
    }
}

impl TranslationFrom {
    /// How a source makes the elements of a via.
    pub fn new<C: Catalogue>(
        catalogue: &C,
        source: usize,
        via: usize,
    ) -> Result<TranslationFrom, TranslationFault>
        ensures { result ≡ from_asked (C.layouts catalogue.now) source via }
    {
        let source = LayoutRef::new(catalogue, source)?;
        let via = LayoutRef::new(catalogue, via)?;
        let from = from_shapes(&source, &via).ok_or(TranslationFault::NoTranslation)?;
        if ranges_fit(from, &source, &via) {
            Ok(from)
        } else {
            Err(TranslationFault::Elements)
        }
    }
}

impl Translation {
    /// The translation of a source by way of a via that begins at `start` in a target.
    pub fn new<C: Catalogue>(catalogue: &C, route: Route) -> Result<Translation, TranslationFault>
        ensures is { result ≡ translated (C.layouts catalogue.now) route.source route.via route.start route.target }
        ensures lawful { IfOk result (LawfulIn (C.layouts catalogue.now) route.source route.via route.start route.target) }
        ensures over { OverListed }
        ensures valid { AllValid (C.layouts catalogue.now) }
    {
        translate(&route.in_catalogue(catalogue)?)
    }
}
