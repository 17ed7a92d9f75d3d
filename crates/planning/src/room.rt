//! Whether what a call brings is long enough.
ghost use Rattle.std.specs.Prelude.{◌≡◌, nat_le};
ghost use Rattle.records.specs.Memory.{left as left_of, opening_short, block_short};

use records::counts::{Counts, Room};

/// Whether a part that an opening brings is shorter than what is in use of it.
pub(crate) fn is_opening_short(n: Counts, room: Room) -> bool
    ensures { result ≡ opening_short n room }
{
    room.brought.constants < n.used.constants
        || room.brought.data < n.used.data
        || room.brought.tensors < n.used.tensors
        || room.brought.variables < n.used.variables
}

/// Whether a part that a block brings is shorter than what is in use of it.
pub(crate) fn is_block_short(n: Counts, room: Room) -> bool
    ensures { result ≡ block_short n room }
{
    room.brought.constants < n.used.constants
        || room.brought.indices < n.used.indices
        || room.brought.tensors < n.used.tensors
        || room.brought.blocks < n.used.blocks
        || room.brought.variables < n.used.variables
        || room.brought.binaries < n.used.binaries
}

/// Whether so many more fit into a table or buffer of which `brought` are brought and `used` in use,
/// up to a limit.
pub(crate) fn fits(more: usize, limit: usize, brought: usize, used: usize) -> bool
    ensures { result ≡ nat_le more (left_of limit brought used) }
{
    more <= limit.min(brought).saturating_sub(used)
}
