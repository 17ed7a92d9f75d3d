//! What a refusal tells.
ghost use Rattle.std.specs.Prelude.{◌≡◌};
ghost use Rattle.translation.specs.declared.kinds.TranslationFault.TheVariants.{Unknown};
ghost use Rattle.translation.specs.Faults.{reported};

use crate::kinds::TranslationFault;
use layout::fault::{Layer, LayoutFault, Report};

impl From<LayoutFault> for TranslationFault {
    ghost from_gives = { λ _ r. r ≡ Unknown };

    fn from(_fault: LayoutFault) -> TranslationFault {
        TranslationFault::Unknown
    }
}

impl TranslationFault {
    /// The number, layer and place of the refusal.
    pub fn report(self) -> Report
        ensures { result ≡ reported self }
    {
        match self {
            TranslationFault::Unknown => Report::new(1, Layer::Stage, 0),
            TranslationFault::Start => Report::new(3, Layer::Translation, 0),
            TranslationFault::NoTranslation => Report::new(4, Layer::Translation, 0),
            TranslationFault::Elements => Report::new(5, Layer::Translation, 0),
            TranslationFault::Uncovered => Report::new(6, Layer::Translation, 0),
            TranslationFault::NoDestination { place } => Report::new(7, Layer::Translation, place),
            TranslationFault::Short => Report::new(23, Layer::Stage, 0),
        }
    }
}
