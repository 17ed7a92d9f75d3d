//! What an expression stands in.
use crate::variable::VariableRecord;
use expression::node::{Letters, VariableNumber};
use layout::catalogue::Catalogue;

/// The variables that names stand for, and the layouts that these have.
#[derive(Drop)]
pub struct Scope<'a, C: Catalogue> {
    pub catalogue: &'a C,
    pub variables: &'a [VariableRecord],
    /// The variable of the open tensor, which is not ready.
    pub opened: Option<VariableNumber>,
}

/// The letters of a block, and its source layout. A source that does not exist counts as a scalar.
#[derive(Clone, Copy)]
pub struct Block {
    pub letters: Letters,
    pub source: usize,
}
