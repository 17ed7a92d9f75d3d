//! The first clash of a new block with the earlier blocks of its tensor.
ghost use Rattle.std.specs.Prelude.{◌≡◌, if◌then◌else◌, None, nat_eq};
ghost use Rattle.layout.specs.Layouts.{Layout};
ghost use Rattle.translation.specs.Laws.{Lawful};
ghost use Rattle.overlap.specs.Clashes.{Orderly, first_clash, first_that, stored_at};
ghost use Rattle.overlap.specs.Rows.{earlier as earlier_of, old_row, shared_by};

use crate::blocks::EarlierBlocks;
use crate::merge::first_shared;
use crate::row::{NewRow, OldRow, Row};
use layout::catalogue::Catalogue;
use layout::index::Index;
use layout::layout_ref::LayoutRef;
use records::record::BlockEntry;
use translation::kinds::Translation;

/// The earlier of two via places, where there are any.
fn earlier(a: Option<usize>, b: Option<usize>) -> Option<usize>
    ensures { result ≡ earlier_of a b }
{
    match (a, b) {
        (Some(a), Some(b)) => Some(a.min(b)),
        _ => a.or(b),
    }
}

/// The first place of a row where an earlier block went, if that is one of the tensor.
fn entry_clash<R: Row>(row: &R, entry: BlockEntry, indices: &[i32], tensor: usize) -> Option<usize>
    requires { Orderly entry.read indices.now }
    ensures { result ≡ (if nat_eq entry.tensor tensor then shared_by (R.places row.now) (old_row (record { block = entry.read; indices = indices.now })) else None) }
{
    if entry.tensor == tensor {
        first_shared(row, &OldRow::new(entry.read, indices))
    } else {
        None
    }
}

/// The first place of a row where one of the blocks of the tensor went.
fn clash_among<R: Row>(row: &R, earlier_blocks: &EarlierBlocks, tensor: usize) -> Option<usize>
    ensures { result ≡ first_that (λ k. stored_at earlier_blocks.now.blocks earlier_blocks.now.indices tensor ((R.places row.now).at k)) (R.places row.now).many }
{
    let mut first = None;
    for entry in earlier_blocks.blocks {
        first = earlier(
            first,
            entry_clash(row, *entry, earlier_blocks.indices, tensor),
        );
    }
    first
}

/// The first via place of a new block whose destination an earlier block of the open tensor has
/// stored into. The earlier blocks are as the last call left them, and the translation is the
/// accepted one of the new block.
pub fn first_clash<C: Catalogue>(
    earlier_blocks: &EarlierBlocks,
    tensor: usize,
    translation: Translation,
    via: &LayoutRef<C>,
    start: Index,
    target: &LayoutRef<C>,
) -> Option<usize>
    requires { (source : Layout) × Lawful source via.now start target.now translation }
    ensures { result ≡ first_clash earlier_blocks.now.blocks earlier_blocks.now.indices tensor via.now start target.now }
{
    clash_among(
        &NewRow::new(translation, via, start, target),
        earlier_blocks,
        tensor,
    )
}
