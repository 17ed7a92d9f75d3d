//! The record of a block, made of its translation.
ghost use Rattle.std.specs.Prelude.{◌≡◌, ◌≤◌, length, IfOk, slice_index_or};
ghost use Rattle.layout.specs.Layouts.{blank};
ghost use Rattle.reader.specs.Recorded.{record_of as record_with, recorded, table_after, Follows};

use crate::record::BlockRecord;
use layout::catalogue::Catalogue;
use layout::room::has_room;
use translation::entries::to_data_layout;
use translation::kinds::{Translation, TranslationFault};
use translation::route::{Route, Routed};

/// How many entries of an index table are used at most.
pub const INDEX_LIMIT: usize = 4_194_304;

/// The record of a block's translation, whose entries stand from a position on.
fn record_of<C: Catalogue>(t: Translation, block: &Routed<C>, at: usize) -> BlockRecord
    requires { at ≤ 4194304 }
    ensures { result ≡ record_with t block.now.source block.now.via block.now.target at }
{
    BlockRecord {
        from: t.from,
        to: t.to,
        via: block.via.count(),
        source: block.source.count(),
        target: block.target.count(),
        ranges: at,
        list: at + t.get_to_index_in_data_layout(),
    }
}

impl BlockRecord {
    /// Translates a block, appends its entries to the index table at a position, and gives its record.
    pub fn new<C: Catalogue>(
        catalogue: &C,
        route: Route,
        table: &mut [i32],
        at: usize,
    ) -> Result<BlockRecord, TranslationFault>
        ensures answer { result ≡ recorded (C.layouts catalogue.now) route.source route.via route.start route.target (length table.old) at }
        ensures table { table.new ≡ table_after result (C.layouts catalogue.now) route.source route.via route.start route.target table.old at }
        ensures follows { IfOk result (λ b. Follows (slice_index_or (C.layouts catalogue.now) route.source blank) (slice_index_or (C.layouts catalogue.now) route.via blank) route.start (slice_index_or (C.layouts catalogue.now) route.target blank) b table.new) }
    {
        let block = route.in_catalogue(catalogue)?;
        let t = Translation::new(catalogue, route)?;
        if !has_room(table.len().min(INDEX_LIMIT), at, t.data_len()) {
            return Err(TranslationFault::Short);
        }
        to_data_layout(catalogue, t, route, table, at)?;
        Ok(record_of(t, &block, at))
    }
}
