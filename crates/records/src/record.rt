//! The records of the stage's tables.
use expression::node::VariableNumber;
use names::binary_table::TableKey;
use names::variable::Class;
use reader::record::BlockRecord;
use translation::route::Route;

/// A tensor: its layout with the count of its places, its class, where its values begin, and the
/// number of its variable. An unstored one has the offset 0.
#[derive(Clone, Copy)]
pub struct TensorRecord {
    pub layout: usize,
    pub places: usize,
    pub class: Class,
    pub offset: usize,
    pub variable: VariableNumber,
}

/// A block: the tensor that it stores into, its route, where the places of a sparse source are in the
/// index table, and what the reader follows.
#[derive(Clone, Copy)]
pub struct BlockEntry {
    pub tensor: usize,
    pub route: Route,
    pub places: Option<usize>,
    pub read: BlockRecord,
}

/// A binary table: what it is of, and where its entries begin in the index table. It has an entry for
/// each place of the source.
#[derive(Clone, Copy)]
pub struct BinaryRecord {
    pub key: TableKey,
    pub at: usize,
}
