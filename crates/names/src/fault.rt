//! Refusals above expressions.
ghost use Rattle.std.specs.Prelude.{◌≡◌};
ghost use Rattle.names.specs.Faults.{reported};
ghost use Rattle.names.specs.declared.fault.NamesFault.TheVariants.{Layout as OfLayout, Expression as OfExpression};

use expression::fault::ExpressionFault;
use layout::fault::{Layer, LayoutFault, Report};

/// A refusal of values or of a table.
#[derive(Clone, Copy, PartialEq, Eq)]
pub enum NamesFault {
    /// A layout is refused.
    Layout(LayoutFault),
    /// An expression is refused.
    Expression(ExpressionFault),
    /// There is no room for what is to be written.
    NoRoom,
}

impl NamesFault {
    /// The number, layer and place of the refusal.
    pub fn report(&self) -> Report
        ensures { result ≡ reported self.now }
    {
        match *self {
            NamesFault::Layout(fault) => fault.report(),
            NamesFault::Expression(fault) => fault.report(),
            NamesFault::NoRoom => Report {
                number: 23,
                layer: Layer::Stage,
                place: 0,
            },
        }
    }
}

impl From<LayoutFault> for NamesFault {
    ghost from_gives = { λ e r. r ≡ OfLayout e };

    fn from(fault: LayoutFault) -> NamesFault {
        NamesFault::Layout(fault)
    }
}

impl From<ExpressionFault> for NamesFault {
    ghost from_gives = { λ e r. r ≡ OfExpression e };

    fn from(fault: ExpressionFault) -> NamesFault {
        NamesFault::Expression(fault)
    }
}
