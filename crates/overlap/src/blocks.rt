//! The blocks so far.
ghost use Rattle.std.specs.Prelude.{◌≡◌};
ghost use Rattle.std.specs.List.{AllByRecursion};
ghost use Rattle.overlap.specs.Clashes.{Orderly, Earlier};

use records::record::BlockEntry;
use std::marker::Model;

/// Accepted blocks, with the index table that has their entries.
#[derive(Drop)]
pub struct EarlierBlocks<'a> {
    pub(crate) blocks: &'a [BlockEntry],
    pub(crate) indices: &'a [i32],
}

impl<'a> Model for EarlierBlocks<'a> {
    ghost Value = { Earlier };

    ghost view = { λ e. record { blocks = e.blocks.now; indices = e.indices.now } };

    ghost invariant = { λ e. AllByRecursion (λ b. Orderly b.read e.indices.now) e.blocks.now };
}

impl<'a> EarlierBlocks<'a> {
    /// The blocks and the index table as the last call left them.
    pub fn new(blocks: &'a [BlockEntry], indices: &'a [i32]) -> EarlierBlocks<'a>
        requires { AllByRecursion (λ e. Orderly e.read indices.now) blocks.now }
        ensures { result ≡ record { blocks = blocks.now; indices = indices.now } }
    {
        EarlierBlocks { blocks, indices }
    }
}
