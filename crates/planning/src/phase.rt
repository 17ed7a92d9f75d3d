//! Which call may come when.
ghost use Rattle.std.specs.Prelude.{◌≡◌};
ghost use Rattle.planning.specs.Phases.{phased};

use crate::fault::StageFault;
use expression::node::VariableNumber;

/// A call that may come or not. A ticket goes by its variable's number.
#[derive(Clone, Copy)]
pub enum Incoming {
    Opening,
    Block(VariableNumber),
    Closing(VariableNumber),
}

/// Whether a call may come: an opening while no tensor is open, a block or a closing while that of
/// its ticket is.
pub fn check_phase(opened: Option<VariableNumber>, incoming: Incoming) -> Result<(), StageFault>
    ensures { result ≡ phased opened incoming }
{
    match (opened, incoming) {
        (None, Incoming::Opening) => Ok(()),
        (Some(open), Incoming::Block(ticket)) if ticket == open => Ok(()),
        (Some(open), Incoming::Closing(ticket)) if ticket == open => Ok(()),
        _ => Err(StageFault::Phase),
    }
}
