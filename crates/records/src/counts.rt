//! How much of each table and buffer is in use.
use expression::node::VariableNumber;

/// An amount of each table and buffer.
#[derive(Clone, Copy, Default, PartialEq, Eq)]
pub struct Amounts {
    pub tensors: usize,
    pub blocks: usize,
    pub variables: usize,
    pub binaries: usize,
    pub constants: usize,
    pub data: usize,
    pub indices: usize,
}

/// How much is in use, and the variable of the open tensor, which is the last one.
#[derive(Clone, Copy)]
pub struct Counts {
    pub opened: Option<VariableNumber>,
    pub used: Amounts,
}

/// How much a call brings, and how long its scratch is.
#[derive(Clone, Copy)]
pub struct Room {
    pub brought: Amounts,
    pub scratch: usize,
}
