//! Entries that are appended to the index table.
ghost use Rattle.std.specs.Prelude.{◌≡◌, ℕ, ◌+◌, ◌<◌, ◌≤◌, length, get_or, pos, ◌≤ℤ◌, ◌<ℤ◌, slice_set};
ghost use Rattle.layout.specs.Layouts.{at as place_of, count as count_of, rank as rank_of};
ghost use Rattle.records.specs.Written.{written};
ghost use Rattle.entries.specs.Fresh.{no_key, table_of, tables, records_from};
ghost use Rattle.entries.specs.Places.{entries_at, place_entries};

use layout::catalogue::Catalogue;
use layout::layout_ref::LayoutRef;
use names::binary_table::{TableKey, to_binary_data_layout};
use records::record::BinaryRecord;

/// Appends a binary table, and answers where its entries end.
#[tactic(auto, using(crate::proofs::Writing::put_written))]
fn write_table<C: Catalogue>(c: &C, key: &TableKey, indices: &mut [i32], at: usize) -> usize
    requires layout { key.now.layout < length (C.layouts c.now) }
    requires source { key.now.source < length (C.layouts c.now) }
    requires room { at + length (table_of (C.layouts c.now) key.now) ≤ length indices.old }
    ensures end { result ≡ at + length (table_of (C.layouts c.now) key.now) }
    ensures entries { indices.new ≡ written indices.old at (table_of (C.layouts c.now) key.now) }
{
    match to_binary_data_layout(c, key, indices, at) {
        Ok(end) => end,
        Err(_) => unreachable(),
    }
}

/// Appends a record.
fn put_record(binaries: &mut [BinaryRecord], number: usize, table: BinaryRecord)
    requires { number < length binaries.old }
    ensures { binaries.new ≡ slice_set binaries.old number table }
{
    binaries[number] = table;
}

/// Appends binary tables one after another, each with its record, and answers where the entries end.
pub fn write_tables<C: Catalogue>(
    c: &C,
    keys: &[TableKey],
    binaries: &mut [BinaryRecord],
    number: usize,
    indices: &mut [i32],
    at: usize,
) -> usize
    requires known { (i : ℕ) → i < length keys.now → ((get_or keys.now i no_key).layout < length (C.layouts c.now)) × ((get_or keys.now i no_key).source < length (C.layouts c.now)) }
    requires records { number + length keys.now ≤ length binaries.old }
    requires room { at + length (tables (C.layouts c.now) keys.now) ≤ length indices.old }
    ensures end { result ≡ at + length (tables (C.layouts c.now) keys.now) }
    ensures entries { indices.new ≡ written indices.old at (tables (C.layouts c.now) keys.now) }
    ensures records { binaries.new ≡ written binaries.old number (records_from (C.layouts c.now) at keys.now) }
{
    let mut end = at;
    for (i, key) in keys.iter().enumerate() {
        let record = BinaryRecord { key: *key, at: end };
        put_record(binaries, number + i, record);
        end = write_table(c, key, indices, end);
    }
    end
}

/// An entry of a place, as the index table has it.
fn entry_of(entry: i64) -> i32
    requires low { pos 0 ≤ℤ entry }
    requires high { entry <ℤ pos 4096 }
    ensures { result ≡ entry }
{
    entry as i32
}

/// Appends a place of a layout, entry by entry, and answers where they end.
fn write_place<C: Catalogue>(
    layout: &LayoutRef<C>,
    k: usize,
    indices: &mut [i32],
    at: usize,
) -> usize
    requires there { k < count_of layout.now }
    requires room { at + rank_of layout.now ≤ length indices.old }
    ensures end { result ≡ at + rank_of layout.now }
    ensures entries { indices.new ≡ written indices.old at (entries_at layout.now (place_of layout.now k)) }
{
    let rank = layout.rank();
    let place = layout.place_or_zeros(k);
    for (i, entry) in place[..rank].iter().enumerate() {
        indices[at + i] = entry_of(*entry);
    }
    at + rank
}

/// Appends the places of a layout, entry by entry, and answers where they end.
pub fn write_places<C: Catalogue>(layout: &LayoutRef<C>, indices: &mut [i32], at: usize) -> usize
    requires { at + length (place_entries layout.now) ≤ length indices.old }
    ensures end { result ≡ at + length (place_entries layout.now) }
    ensures entries { indices.new ≡ written indices.old at (place_entries layout.now) }
{
    let mut end = at;
    for k in 0..layout.count() {
        end = write_place(layout, k, indices, end);
    }
    end
}
