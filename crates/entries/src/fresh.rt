//! The binary tables that a block adds.
ghost use Rattle.std.specs.Prelude.{◌≡◌, ◌+◌, ◌<◌, ◌≤◌, ◌++◌, map, length, take};
ghost use Rattle.expression.specs.Letterings.{letters_of};
ghost use Rattle.entries.specs.Fresh.{same_key, has_key, keys_of, added, fresh as fresh_of};
ghost use Rattle.entries.specs.Needed.{needed as needed_by};

use crate::needed::BlockNames;
use expression::node::Node;
use layout::catalogue::Catalogue;
use names::binary_table::TableKey;
use records::record::BinaryRecord;

/// Whether two tables are of the same layouts and permutation.
fn same_table(a: &TableKey, b: &TableKey) -> bool
    ensures { result ≡ same_key a.now b.now }
{
    a == b
}

/// Whether a table has a record.
fn is_recorded(binaries: &[BinaryRecord], key: &TableKey) -> bool
    ensures { result ≡ has_key key.now (keys_of binaries.now) }
{
    binaries.iter().any(|record| same_table(&record.key, key))
}

/// Whether a table is among some.
fn is_listed(listed: &[TableKey], key: &TableKey) -> bool
    ensures { result ≡ has_key key.now listed.now }
{
    listed.iter().any(|other| same_table(other, key))
}

/// Whether a table has a record, or is listed.
fn is_known(binaries: &[BinaryRecord], listed: &[TableKey], key: &TableKey) -> bool
    ensures { result ≡ has_key key.now (keys_of binaries.now ++ listed.now) }
{
    is_recorded(binaries, key) || is_listed(listed, key)
}

/// Puts a table that is needed after the first `count` of a list, unless it is known, and counts them.
fn add_needed(
    binaries: &[BinaryRecord],
    keys: &mut [TableKey],
    count: usize,
    needed: Option<TableKey>,
) -> usize
    requires { count < length keys.old }
    ensures keys { take result keys.new ≡ take count keys.old ++ added (keys_of binaries.now ++ take count keys.old) needed }
    ensures count { result ≤ count + 1 }
{
    match needed {
        Some(key) if !is_known(binaries, &keys[..count], &key) => {
            keys[count] = key;
            count + 1
        }
        _ => count,
    }
}

/// Lists the tables that the names of a block need, in node order, each once and none that has a
/// record, and counts them.
#[tactic(auto, using(crate::proofs::Freshness::listed_more, crate::proofs::Freshness::listed_all))]
pub fn fresh_tables<C: Catalogue>(
    names: &BlockNames<C>,
    nodes: &[Node],
    binaries: &[BinaryRecord],
    keys: &mut [TableKey],
) -> usize
    requires room { length nodes.now ≤ length keys.old }
    ensures count { result ≤ length nodes.now }
    ensures keys { take result keys.new ≡ fresh_of (keys_of binaries.now) (map (needed_by (C.layouts names.now.scope.now.catalogue.now) names.now.scope.now.variables.now (letters_of names.now.block.letters) names.now.block.source) nodes.now) }
{
    let mut count = 0;
    for node in nodes {
        count = add_needed(binaries, keys, count, names.table_needed(*node));
    }
    count
}
