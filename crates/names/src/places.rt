//! The values of an expression at all source places.
ghost use Rattle.std.specs.Prelude.{◌≡◌, length, Ok, Err, MatchResult};
ghost use Rattle.names.specs.Outcomes.{value_of, gathered, outcomes_of, PutInFront};

use crate::evaluate::{Checked, Evaluation};
use crate::fault::NamesFault;
use crate::scope::Block;
use expression::fault::ExpressionFault;
use expression::host::Host;
use expression::node::Node;
use layout::catalogue::Catalogue;

/// Writes the values of an expression at as many source places as there is room for, or stops at the
/// first place without one.
fn write_values<C: Catalogue, H: Host>(
    expression: &Checked<C>,
    host: &H,
    out: &mut [f64],
) -> Result<(), ExpressionFault>
    ensures { MatchResult (gathered (value_of (H.answers host.now) expression.now) (length out.old)) (λ values. (result ≡ Ok tt) × (out.new ≡ values)) (λ fault. result ≡ Err fault) }
{
    for (k, value) in out.iter_mut().enumerate() {
        *value = expression.value_at(host, k)?;
    }
    Ok(())
}

/// Checks an expression in a constant block once, and puts its values at all source places into the
/// front of `out`: refused by a check, then for want of room, then by place and node. After a
/// refusal `out` holds anything.
pub fn evaluate_places<C: Catalogue, H: Host>(
    evaluation: &Evaluation<C, H>,
    block: Block,
    nodes: &[Node],
    out: &mut [f64],
) -> Result<(), NamesFault>
    ensures { PutInFront (outcomes_of (H.answers evaluation.now.host.now) (C.layouts evaluation.now.scope.catalogue.now) evaluation.now.scope.variables.now evaluation.now.scope.opened evaluation.now.constants.now block.letters block.source nodes.now (length out.old)) out.old out.new result }
{
    let expression = Checked::new(evaluation, block, nodes)?;
    let count = expression.place_count();
    if count > out.len() {
        return Err(NamesFault::NoRoom);
    }
    write_values(&expression, evaluation.host, &mut out[..count])?;
    Ok(())
}
