//! What a block call says besides its expression.
ghost use Rattle.std.specs.Prelude.{◌≡◌};
ghost use Rattle.planning.specs.Blocks.{route_into};

use expression::node::Letters;
use layout::index::Index;
use translation::route::Route;

/// The layouts of a block's source and via, where it begins in its tensor, its letters, and whether
/// it becomes a variable.
#[derive(Clone, Copy)]
pub struct BlockCall {
    pub source: usize,
    pub via: usize,
    pub start: Index,
    pub letters: Letters,
    pub named: bool,
}

impl BlockCall {
    /// The route of the block, into a tensor with this layout.
    pub fn route(&self, target: usize) -> Route
        ensures { result ≡ route_into target self.now }
    {
        Route {
            source: self.source,
            via: self.via,
            start: self.start,
            target,
        }
    }
}
