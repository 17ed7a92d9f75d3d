//! How a block is led: from a source by way of a via into a target.
ghost use Rattle.std.specs.Prelude.{◌≡◌, MatchResult};
ghost use Rattle.layout.specs.Layouts.{AllValid};
ghost use Rattle.layout.specs.declared.fault.LayoutFault.TheVariants.{Unknown};
ghost use Rattle.translation.specs.Routes.{AllKnown, Leads};

use layout::catalogue::Catalogue;
use layout::fault::LayoutFault;
use layout::index::Index;
use layout::layout_ref::LayoutRef;

/// The layouts of a block by their numbers, and where its via begins in the target.
#[derive(Clone, Copy, PartialEq, Eq)]
pub struct Route {
    pub source: usize,
    pub via: usize,
    pub start: Index,
    pub target: usize,
}

/// A route whose layouts the catalogue has.
#[derive(Drop)]
pub struct Routed<'a, C: Catalogue> {
    pub source: LayoutRef<'a, C>,
    pub via: LayoutRef<'a, C>,
    pub start: Index,
    pub target: LayoutRef<'a, C>,
}

impl Route {
    /// The route with its layouts, if the catalogue has them.
    pub fn in_catalogue<C: Catalogue>(self, catalogue: &C) -> Result<Routed<'_, C>, LayoutFault>
        ensures is { MatchResult result
            (λ b. Leads (C.layouts catalogue.now) self b.source b.via b.start b.target)
            (λ f. (f ≡ Unknown) × (AllKnown (C.layouts catalogue.now) self → ⊥)) }
        ensures valid { AllValid (C.layouts catalogue.now) }
    {
        Ok(Routed {
            source: LayoutRef::new(catalogue, self.source)?,
            via: LayoutRef::new(catalogue, self.via)?,
            start: self.start,
            target: LayoutRef::new(catalogue, self.target)?,
        })
    }
}
