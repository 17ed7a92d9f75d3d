//! What a new block can share of an earlier one's entries in the index table.
ghost use Rattle.std.specs.Prelude.{◌≡◌, ◌==◌};
ghost use Rattle.overlap.specs.Sharing.{same_call as call_test, shared as shared_of, placed_at};

use reader::record::BlockRecord;
use records::record::BlockEntry;
use translation::route::Route;

fn has_source(entry: &BlockEntry, source: usize) -> bool
    ensures { result ≡ (entry.now.route.source == source) }
{
    entry.route.source == source
}

/// Whether a block was called with a route.
fn same_call(entry: BlockEntry, route: Route) -> bool
    ensures { result ≡ call_test entry route.source route.via route.start route.target }
{
    entry.route == route
}

/// The record of the first block with the same route: its ranges and its listed destinations are
/// those of the new block.
pub fn shared_entries(blocks: &[BlockEntry], route: Route) -> Option<BlockRecord>
    ensures { result ≡ shared_of blocks.now route.source route.via route.start route.target }
{
    let entry = blocks.iter().find(|entry| same_call(**entry, route))?;
    Some(entry.read)
}

/// Where the places of a sparse source are in the index table already: where the first block with
/// that source has them.
pub fn places_at(blocks: &[BlockEntry], source: usize) -> Option<usize>
    ensures { result ≡ placed_at blocks.now source }
{
    let entry = blocks.iter().find(|entry| has_source(entry, source))?;
    entry.places
}
