//! Refusals of expressions.
ghost use Rattle.std.specs.Prelude.{◌≡◌};
ghost use Rattle.expression.specs.Faults.{reported};

use layout::fault::{Layer, Report};

/// Why an expression is refused, and at which node.
#[derive(Clone, Copy, PartialEq, Eq)]
pub enum ExpressionFault {
    /// The nodes are no expression, or a function or operator is unknown.
    Malformed,
    /// The letters of a name may not stand.
    Letters { node: usize },
    /// A name in a constant block is not constant.
    NotConstant { node: usize },
    /// The host has no value.
    NoHostValue { node: usize },
    /// A variable is absent or not ready.
    NotReady { node: usize },
}

impl ExpressionFault {
    /// The number, layer and place of the refusal.
    pub fn report(&self) -> Report
        ensures { result ≡ reported self.now }
    {
        let (number, place) = match *self {
            ExpressionFault::Malformed => (2, 0),
            ExpressionFault::Letters { node } => (9, node),
            ExpressionFault::NotConstant { node } => (10, node),
            ExpressionFault::NoHostValue { node } => (11, node),
            ExpressionFault::NotReady { node } => (21, node),
        };
        Report::new(number, Layer::Expression, place)
    }
}
