//! What evaluation keeps to.
ghost use Rattle.expression.specs.Laws.{Composes, ReadsDecide, FirstConditionGives};

/// A node's value is that at the values of the expressions before it, only what is read decides,
/// and of a piecewise the first condition that holds.
pub fn laws_stand()
    ensures composes { Composes }
    ensures decides { ReadsDecide }
    ensures piecewise { FirstConditionGives }
{}
