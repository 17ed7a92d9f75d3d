//! Binary tables: for each source place, the number that it has in a name's layout.
ghost use Rattle.std.specs.Prelude.{◌≡◌, ◌+◌, ◌<◌, ◌≤◌, length, IfSome};
ghost use Rattle.layout.specs.Layouts.{count as count_of};
ghost use Rattle.names.specs.Reading.{slots_of, table_element};
ghost use Rattle.names.specs.Tables.{entry_of, binary_table, table_asked, PutFrom, identity_from, NoTableAsked};

use crate::element::permuted;
use crate::fault::NamesFault;
use crate::permutation::Permutation;
use layout::catalogue::Catalogue;
use layout::fault::LayoutFault;
use layout::find::eq_nonzeros;
use layout::index::Index;
use layout::layout_ref::LayoutRef;
use layout::room::has_room;

/// What a binary table is of: the layout of a name, that of a source, and the permutation.
#[derive(Clone, Copy, PartialEq, Eq)]
pub struct TableKey {
    pub layout: usize,
    pub source: usize,
    pub permutation: Permutation,
}

/// The entry of a place that has no number in the name's layout.
const ABSENT: i32 = -1;

/// A number as an entry.
fn table_entry(number: Option<usize>) -> i32
    requires { IfSome number (λ n. n < 65536) }
    ensures { result ≡ entry_of number }
{
    // A closure would need the bound as a clause of its own.
    match number {
        Some(n) => n as i32,
        None => ABSENT,
    }
}

/// The entry of a source place.
fn entry_at<C: Catalogue>(layout: &LayoutRef<C>, slots: &[usize], place: Index) -> i32
    ensures { result ≡ entry_of (table_element layout.now slots.now place) }
{
    let rank = layout.shape().rank;
    table_entry(layout.find_nnz_index(permuted(rank, slots, place)))
}

/// Writes the entry of each source place.
fn write_table<C: Catalogue>(
    layout: &LayoutRef<C>,
    slots: &[usize],
    source: &LayoutRef<C>,
    table: &mut [i32],
)
    requires { length table.old ≡ count_of source.now }
    ensures { table.new ≡ binary_table layout.now source.now slots.now }
{
    for (k, entry) in table.iter_mut().enumerate() {
        *entry = entry_at(layout, slots, source.place_or_zeros(k));
    }
}

/// Appends a binary table at a position of `table`, and gives the position after it. Refused where a
/// layout does not exist, and then for want of room.
pub fn to_binary_data_layout<C: Catalogue>(
    c: &C,
    key: &TableKey,
    table: &mut [i32],
    at: usize,
) -> Result<usize, NamesFault>
    ensures { PutFrom at (table_asked (C.layouts c.now) key.now.layout key.now.source (slots_of key.now.permutation) at (length table.old)) table.old table.new result }
{
    let layout = LayoutRef::new(c, key.layout)?;
    let source = LayoutRef::new(c, key.source)?;
    let count = source.count();
    if !has_room(table.len(), at, count) {
        return Err(NamesFault::NoRoom);
    }
    write_table(
        &layout,
        key.permutation.meant(),
        &source,
        &mut table[at..at + count],
    );
    Ok(at + count)
}

/// Whether each entry stays where it is.
fn is_identity(slots: &[usize]) -> bool
    ensures { result ≡ identity_from 0 slots.now }
{
    slots.iter().enumerate().all(|(i, slot)| *slot == i)
}

/// Whether a name's layout needs no binary table under a source: the source place's own number
/// counts then.
pub fn needs_no_table<C: Catalogue>(c: &C, key: &TableKey) -> Result<bool, LayoutFault>
    ensures { NoTableAsked (C.layouts c.now) key.now.layout key.now.source (slots_of key.now.permutation) result }
{
    Ok(eq_nonzeros(c, key.layout, key.source)? && is_identity(key.permutation.meant()))
}
