//! A translation's entries in the index table, which is lent, and appended to from a position.
ghost use Rattle.std.specs.Prelude.{◌≡◌, ◌+◌, ◌≤◌, length};
ghost use Rattle.std.proofs.Math.Seq.{paste};
ghost use Rattle.layout.specs.Layouts.{rank, count as place_count};
ghost use Rattle.translation.specs.Tos.{destination as destination_of};
ghost use Rattle.translation.specs.Entries.{from_entries, to_entries, data_layout, from_count, to_count, data_count, entries_of, appending, appended};

use crate::kinds::{Translation, TranslationFault, TranslationFrom, TranslationTo};
use crate::ranges::{count_ranges, write_ranges};
use crate::route::{Route, Routed};
use crate::target::write_destinations;
use layout::catalogue::Catalogue;
use layout::room::has_room;

impl Translation {
    /// How many entries the ranges have, so where the listed destinations begin.
    pub fn get_to_index_in_data_layout(self) -> usize
        ensures { result ≡ from_count self.from self.elements }
    {
        match self.from {
            TranslationFrom::SparseContraction { .. } => 2 * self.elements as usize,
            _ => 0,
        }
    }

    /// How many entries there are.
    pub fn data_len(self) -> usize
        ensures { result ≡ data_count self }
    {
        self.get_to_index_in_data_layout() + to_len(self.to, self.elements as usize)
    }
}

/// How many entries the destinations have.
fn to_len(to: TranslationTo, count: usize) -> usize
    ensures is { result ≡ to_count to count }
    ensures bound { result ≤ count }
{
    match to {
        TranslationTo::Contiguous { .. } => 0,
        TranslationTo::Listed => count,
    }
}

/// How many entries the ranges have.
fn from_len<C: Catalogue>(from: TranslationFrom, block: &Routed<C>) -> usize
    ensures is { result ≡ length (from_entries from block.now.source (rank block.now.via)) }
    ensures bound { result ≤ 131072 }
{
    match from {
        TranslationFrom::SparseContraction { .. } => 2
            * count_ranges(block.via.rank(), &block.source),
        _ => 0,
    }
}

/// Appends the ranges, where there are any, and answers where the entries end.
fn write_from<C: Catalogue>(
    from: TranslationFrom,
    block: &Routed<C>,
    table: &mut [i32],
    at: usize,
) -> usize
    requires { at + length (from_entries from block.now.source (rank block.now.via)) ≤ length table.old }
    ensures end { result ≡ at + length (from_entries from block.now.source (rank block.now.via)) }
    ensures written { table.new ≡ paste table.old at (from_entries from block.now.source (rank block.now.via)) (length (from_entries from block.now.source (rank block.now.via))) }
{
    match from {
        TranslationFrom::SparseContraction { .. } => write_ranges(
            block.via.rank(),
            &block.source,
            table,
            at,
        ),
        _ => at,
    }
}

/// Appends the destinations, where they are listed, and answers where the entries end.
fn write_to<C: Catalogue>(
    to: TranslationTo,
    block: &Routed<C>,
    table: &mut [i32],
    at: usize,
) -> usize
    requires { at + length (to_entries to (destination_of block.now.via block.now.start block.now.target) (place_count block.now.via)) ≤ length table.old }
    ensures end { result ≡ at + length (to_entries to (destination_of block.now.via block.now.start block.now.target) (place_count block.now.via)) }
    ensures written { table.new ≡ paste table.old at (to_entries to (destination_of block.now.via block.now.start block.now.target) (place_count block.now.via)) (length (to_entries to (destination_of block.now.via block.now.start block.now.target) (place_count block.now.via))) }
{
    match to {
        TranslationTo::Contiguous { .. } => at,
        TranslationTo::Listed => {
            let end = at + block.via.count();
            write_destinations(block, &mut table[at..end]);
            end
        }
    }
}

/// Appends each range as start and end, then each listed destination, and answers where the entries end.
fn write_entries<C: Catalogue>(
    translation: Translation,
    block: &Routed<C>,
    table: &mut [i32],
    at: usize,
) -> usize
    requires { at + length (data_layout translation block.now.source block.now.via block.now.start block.now.target) ≤ length table.old }
    ensures end { result ≡ at + length (data_layout translation block.now.source block.now.via block.now.start block.now.target) }
    ensures written { table.new ≡ paste table.old at (data_layout translation block.now.source block.now.via block.now.start block.now.target) (length (data_layout translation block.now.source block.now.via block.now.start block.now.target)) }
{
    let listed = write_from(translation.from, block, table, at);
    write_to(translation.to, block, table, listed)
}

/// Appends the entries of a translation to the index table at a position: each range as start and
/// end, then each listed destination. Answers where they end.
pub fn to_data_layout<C: Catalogue>(
    catalogue: &C,
    translation: Translation,
    route: Route,
    table: &mut [i32],
    at: usize,
) -> Result<usize, TranslationFault>
    ensures answer { result ≡ appending (C.layouts catalogue.now) translation route.source route.via route.start route.target (length table.old) at }
    ensures written { table.new ≡ appended result table.old at (entries_of (C.layouts catalogue.now) translation route.source route.via route.start route.target) }
{
    let block = route.in_catalogue(catalogue)?;
    let need = from_len(translation.from, &block) + to_len(translation.to, block.via.count());
    if !has_room(table.len(), at, need) {
        return Err(TranslationFault::Short);
    }
    Ok(write_entries(translation, &block, table, at))
}
