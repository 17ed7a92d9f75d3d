//! How much of each table and buffer is used at most.
use crate::counts::Amounts;

/// Variables are those with a record: t and N, the first two of 256, have none.
pub const LIMITS: Amounts = Amounts {
    tensors: 64,
    blocks: 256,
    variables: 254,
    binaries: 4_096,
    constants: 1_048_576,
    data: 1_048_576,
    indices: 4_194_304,
};
