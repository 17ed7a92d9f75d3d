//! Refusals of the stage's calls.
ghost use Rattle.std.specs.Prelude.{◌≡◌};
ghost use Rattle.planning.specs.Faults.{block_reported, reported};
ghost use Rattle.planning.specs.declared.fault.BlockFault.TheVariants.{Translation as OfTranslation, Expression as OfExpression};
ghost use Rattle.planning.specs.declared.fault.StageFault.TheVariants.{Block as OfBlock, Unknown};

use expression::fault::ExpressionFault;
use layout::fault::{Layer, LayoutFault, Report};
use names::variable::UnknownClass;
use translation::kinds::TranslationFault;

/// Why a block is refused.
#[derive(Clone, Copy, PartialEq, Eq)]
pub enum BlockFault {
    /// A block letter is unknown, stands twice, or is a fifth.
    Letters,
    /// It has no translation.
    Translation(TranslationFault),
    /// An earlier block of the tensor has stored at the destination of this via place.
    Stored { place: usize },
    /// A named block has listed destinations.
    Listed,
    /// Its expression is refused.
    Expression(ExpressionFault),
}

/// Why a call is refused.
#[derive(Clone, Copy, PartialEq, Eq)]
pub enum StageFault {
    /// The call does not come now, or its ticket is not the open tensor's.
    Phase,
    /// There is no such layout or class.
    Unknown,
    /// A buffer or table is too short.
    Short,
    /// The block is refused.
    Block(BlockFault),
}

impl BlockFault {
    /// The number, layer and place of the refusal.
    pub fn report(&self) -> Report
        ensures { result ≡ block_reported self.now }
    {
        match *self {
            BlockFault::Letters => Report::new(1, Layer::Stage, 0),
            BlockFault::Translation(fault) => fault.report(),
            BlockFault::Stored { place } => Report::new(22, Layer::Stage, place),
            BlockFault::Listed => Report::new(8, Layer::Stage, 0),
            BlockFault::Expression(fault) => fault.report(),
        }
    }
}

impl StageFault {
    /// The number, layer and place of the refusal.
    pub fn report(&self) -> Report
        ensures { result ≡ reported self.now }
    {
        match *self {
            StageFault::Phase => Report::new(20, Layer::Stage, 0),
            StageFault::Unknown => Report::new(1, Layer::Stage, 0),
            StageFault::Short => Report::new(23, Layer::Stage, 0),
            StageFault::Block(fault) => fault.report(),
        }
    }
}

impl From<TranslationFault> for BlockFault {
    ghost from_gives = { λ e r. r ≡ OfTranslation e };

    fn from(fault: TranslationFault) -> BlockFault {
        BlockFault::Translation(fault)
    }
}

impl From<ExpressionFault> for BlockFault {
    ghost from_gives = { λ e r. r ≡ OfExpression e };

    fn from(fault: ExpressionFault) -> BlockFault {
        BlockFault::Expression(fault)
    }
}

impl From<BlockFault> for StageFault {
    ghost from_gives = { λ e r. r ≡ OfBlock e };

    fn from(fault: BlockFault) -> StageFault {
        StageFault::Block(fault)
    }
}

impl From<LayoutFault> for StageFault {
    ghost from_gives = { λ _ r. r ≡ Unknown };

    fn from(_fault: LayoutFault) -> StageFault {
        StageFault::Unknown
    }
}

impl From<UnknownClass> for StageFault {
    ghost from_gives = { λ _ r. r ≡ Unknown };

    fn from(_fault: UnknownClass) -> StageFault {
        StageFault::Unknown
    }
}
